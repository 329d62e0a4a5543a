ghost use Rattle.std.specs.Prelude.{◌≡◌, min, not, [], length, take};
ghost use Rattle.ordered.specs.Changes.{settled};
ghost use Rattle.ordered.specs.Meaning.{first, inserted, updated, removed};
ghost use Rattle.ordered.specs.Promises.{Puts, Sets, Takes};
ghost use Rattle.ordered.specs.Slots.{Holds};
ghost use Rattle.slot_rows.specs.Ranks.{key_below};
ghost use Rattle.straight_row.specs.Index.{row_in, room_in, Keeps};
ghost use Rattle.straight_row.specs.Straight.{Leaves};

use ordered::{Fault, Key, MOST_SLOTS, OrderedIndex, Slot};
use slot_edits::{remove, replace};
use slot_rows::{Bound, blank, push_up, rank, search};

// The caller lends the slots, since the project allows no heap; so the count stands beside them.
#[derive(Drop)]
pub struct StraightRow<'a, K: Key, R: Copy> {
    slots: &'a mut [Slot<K, R>],
    count: usize,
}

impl<'a, K: Key, R: Copy> StraightRow<'a, K, R> {
    // An empty index over the slots, of which the first 1,048,575 count.
    pub fn over(slots: &'a mut [Slot<K, R>]) -> StraightRow<'a, K, R>
        ensures rules { Keeps K.Key.before result }
        ensures slots { Leaves [] slots.old result.slots.now }
    {
        let room = slots.len().min(MOST_SLOTS);
        blank(&mut slots[..room]);
        StraightRow { slots, count: 0 }
    }

    // How many slots count.
    fn countable(&self) -> usize
        ensures { result ≡ room_in self.now }
    {
        self.slots.len().min(MOST_SLOTS)
    }

    // Where the slots that hold the pairs end.
    fn end(&self) -> usize
        ensures { result ≡ min self.now.count (length self.now.slots.now) }
    {
        self.count.min(self.slots.len())
    }

    // The slots that hold the pairs.
    fn held(&self) -> &[Slot<K, R>]
        ensures front { result.now ≡ take self.now.count self.now.slots.now }
        ensures row { Keeps K.Key.before self.now → Holds (row_in self.now) result.now }
    {
        &self.slots[..self.end()]
    }

    fn first_from(&self, key: K, bound: Bound) -> Option<(K, R)>
        ensures { Keeps K.Key.before self.now → result ≡ first (λ q. not (key_below bound K.Key.before key q)) (row_in self.now) }
    {
        let held = self.held();
        let slot = *held.get(rank(held, key, bound))?;
        Some((slot.key, slot.value))
    }
}

impl<'a, K: Key, R: Copy> OrderedIndex<K, R> for StraightRow<'a, K, R> {
    ghost row = { row_in };

    ghost room = { room_in };

    ghost kept = { Keeps K.Key.before };

    fn count(&self) -> usize {
        self.count
    }

    fn capacity(&self) -> usize {
        self.countable()
    }

    fn get(&self, key: K) -> Option<R> {
        let held = self.held();
        let at = search(held, key).ok()?;
        Some(held[at].value)
    }

    fn at_or_above(&self, key: K) -> Option<(K, R)> {
        self.first_from(key, Bound::Lower)
    }

    fn above(&self, key: K) -> Option<(K, R)> {
        self.first_from(key, Bound::Upper)
    }

    fn put(&mut self, key: K, value: R) -> Result<(), Fault>
        ensures meaning { Puts row_in room_in (Keeps K.Key.before) K.Key.before self.old key value result self.new }
        ensures slots { Keeps K.Key.before self.old → Leaves (settled result (inserted K.Key.before (row_in self.old) key value) (row_in self.old)) self.old.slots.now self.new.slots.now }
    {
        let Err(at) = search(self.held(), key) else {
            return Err(Fault::Present);
        };
        if self.count >= self.countable() {
            return Err(Fault::Full);
        }
        let pair = Slot {
            filled: true,
            key,
            value,
        };
        push_up(&mut self.slots[at..=self.count], pair);
        self.count += 1;
        Ok(())
    }

    fn set(&mut self, key: K, value: R) -> Result<(), Fault>
        ensures meaning { Sets row_in room_in (Keeps K.Key.before) K.Key.before self.old key value result self.new }
        ensures slots { Keeps K.Key.before self.old → Leaves (settled result (updated K.Key.before (row_in self.old) key value) (row_in self.old)) self.old.slots.now self.new.slots.now }
    {
        let end = self.end();
        replace(&mut self.slots[0..end], key, value)
    }

    fn take(&mut self, key: K) -> Result<(), Fault>
        ensures meaning { Takes row_in room_in (Keeps K.Key.before) K.Key.before self.old key result self.new }
        ensures slots { Keeps K.Key.before self.old → Leaves (settled result (removed K.Key.before (row_in self.old) key) (row_in self.old)) self.old.slots.now self.new.slots.now }
    {
        let end = self.end();
        remove(&mut self.slots[0..end], key)?;
        self.count -= 1;
        Ok(())
    }
}
