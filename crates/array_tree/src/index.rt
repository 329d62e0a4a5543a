ghost use Rattle.std.specs.Prelude.{◌≡◌, length};
ghost use Rattle.ordered.specs.Promises.{Puts, Sets, Takes};
ghost use Rattle.ordered.specs.Slots.{countable};
ghost use Rattle.tree_layout.specs.Rows.{LayoutOf};
ghost use Rattle.tree_changes.specs.Changed.{Landed, Replaced, Removed};
ghost use Rattle.array_tree.specs.Standing.{row_in, room_in, height_of, Keeps, Does};

use crate::ArrayTree;
use ordered::{Fault, Key, OrderedIndex};
use slot_rows::Bound;
use tree_changes::{put_pair, set_pair, take_pair};
use tree_layout::Layout;
use tree_search::{find, first_from};

impl<'a, K: Key, R: Copy> ArrayTree<'a, K, R> {
    fn layout(&self) -> Option<Layout>
        ensures { LayoutOf K.Key.WIDTH (countable (length self.now.slots.now)) result }
    {
        Layout::of_row::<K>(self.slots.len())
    }
}

// A row too short for a tree has no layout, and answers as an empty index of capacity 0.
impl<'a, K: Key, R: Copy> OrderedIndex<K, R> for ArrayTree<'a, K, R> {
    ghost row = { row_in K.Key.WIDTH };

    ghost room = { room_in K.Key.WIDTH };

    ghost kept = { Keeps K.Key.before K.Key.WIDTH };

    fn count(&self) -> usize {
        self.count
    }

    fn capacity(&self) -> usize {
        self.room
    }

    fn get(&self, key: K) -> Option<R> {
        find(self.slots, self.layout()?, key)
    }

    fn at_or_above(&self, key: K) -> Option<(K, R)> {
        first_from(self.slots, self.layout()?, key, Bound::Lower)
    }

    fn above(&self, key: K) -> Option<(K, R)> {
        first_from(self.slots, self.layout()?, key, Bound::Upper)
    }

    fn put(&mut self, key: K, value: R) -> Result<(), Fault>
        ensures meaning { Puts (row_in K.Key.WIDTH) (room_in K.Key.WIDTH) (Keeps K.Key.before K.Key.WIDTH) K.Key.before self.old key value result self.new }
        ensures slots { Keeps K.Key.before K.Key.WIDTH self.old → Does (height_of K.Key.WIDTH self.old) (λ h ys. Landed K.Key.before K.Key.WIDTH h self.old.slots.now key value ys) self.old.slots.now result self.new.slots.now }
    {
        let layout = self.layout().ok_or(Fault::Full)?;
        put_pair(self.slots, layout, key, value)?;
        self.count = self.count.saturating_add(1);
        Ok(())
    }

    fn set(&mut self, key: K, value: R) -> Result<(), Fault>
        ensures meaning { Sets (row_in K.Key.WIDTH) (room_in K.Key.WIDTH) (Keeps K.Key.before K.Key.WIDTH) K.Key.before self.old key value result self.new }
        ensures slots { Keeps K.Key.before K.Key.WIDTH self.old → Does (height_of K.Key.WIDTH self.old) (λ h ys. Replaced K.Key.before K.Key.WIDTH h self.old.slots.now key value ys) self.old.slots.now result self.new.slots.now }
    {
        let laid = self.layout().ok_or(Fault::Absent)?;
        set_pair(self.slots, laid, key, value)
    }

    fn take(&mut self, key: K) -> Result<(), Fault>
        ensures meaning { Takes (row_in K.Key.WIDTH) (room_in K.Key.WIDTH) (Keeps K.Key.before K.Key.WIDTH) K.Key.before self.old key result self.new }
        ensures slots { Keeps K.Key.before K.Key.WIDTH self.old → Does (height_of K.Key.WIDTH self.old) (λ h ys. Removed K.Key.before K.Key.WIDTH h self.old.slots.now key ys) self.old.slots.now result self.new.slots.now }
    {
        let layout = self.layout().ok_or(Fault::Absent)?;
        take_pair(self.slots, layout, key)?;
        self.count = self.count.saturating_sub(1);
        Ok(())
    }
}
