ghost use Rattle.std.specs.Prelude.{◌≡◌};
ghost use Rattle.array_tree.specs.Filling.{follows};
ghost use Rattle.array_tree.specs.Trees.{row_of, Fed};

use crate::FillingTree;
use ordered::{Fault, Key, Slot};

impl<'a, K: Key, R: Copy> FillingTree<'a, K, R> {
    // Whether the key is after the key last accepted.
    fn is_after_last(&self, key: K) -> bool
        ensures { result ≡ follows K.Key.before (row_of self.now) key }
    {
        match self.layout {
            Some(layout) if self.count > 0 => {
                let last = self.slots[layout.base + self.count - 1];
                last.key.is_before(&key)
            }
            _ => true,
        }
    }

    // Adds a pair whose key is after every key so far.
    pub fn feed(&mut self, key: K, value: R) -> Result<(), Fault>
        ensures { Fed key value result self.old self.new }
    {
        if !self.is_after_last(key) {
            return Err(Fault::NotAfter);
        }
        let layout = self.layout.ok_or(Fault::Full)?;
        if self.count == layout.capacity() {
            return Err(Fault::Full);
        }
        self.slots[layout.base + self.count] = Slot {
            filled: true,
            key,
            value,
        };
        self.count += 1;
        Ok(())
    }
}
