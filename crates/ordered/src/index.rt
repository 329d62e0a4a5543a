ghost use Rattle.std.specs.Prelude.{ℕ, Bool, List, length};
ghost use Rattle.ordered.specs.Meaning.{lookup, at_or_above, above};
ghost use Rattle.ordered.specs.Promises.{Answers, Puts, Sets, Takes};

use crate::{Fault, Key};

// An ordered row of pairs under a capacity: what every make of an index answers and does.
//
// `row` and `room` are its meaning. `kept` says that its slots keep the rules of its make; a new index keeps
// them, and every change keeps them, so that who only uses an index never meets one that does not.
pub trait OrderedIndex<K: Key, R: Copy> {
    ghost row: { Self → List (K × R) };

    ghost room: { Self → ℕ };

    ghost kept: { Self → Type 0 };

    fn count(&self) -> usize
        ensures meaning { Answers row room kept K.Key.before self.now result (length (row self.now)) };

    fn capacity(&self) -> usize
        ensures meaning { Answers row room kept K.Key.before self.now result (room self.now) };

    fn get(&self, key: K) -> Option<R>
        ensures meaning { Answers row room kept K.Key.before self.now result (lookup K.Key.before (row self.now) key) };

    fn at_or_above(&self, key: K) -> Option<(K, R)>
        ensures meaning { Answers row room kept K.Key.before self.now result (at_or_above K.Key.before (row self.now) key) };

    fn above(&self, key: K) -> Option<(K, R)>
        ensures meaning { Answers row room kept K.Key.before self.now result (above K.Key.before (row self.now) key) };

    fn put(&mut self, key: K, value: R) -> Result<(), Fault>
        ensures meaning { Puts row room kept K.Key.before self.old key value result self.new };

    fn set(&mut self, key: K, value: R) -> Result<(), Fault>
        ensures meaning { Sets row room kept K.Key.before self.old key value result self.new };

    fn take(&mut self, key: K) -> Result<(), Fault>
        ensures meaning { Takes row room kept K.Key.before self.old key result self.new };
}
