ghost use Rattle.std.specs.Prelude.{◌≡◌};
ghost use Rattle.std.specs.Iterator.{at_most};
ghost use Rattle.ordered.specs.Meaning.{Ascending};
ghost use Rattle.log_yard.specs.Walk.{pairs_left, pairs_steps, from_key};

use ordered::{Key, OrderedIndex};

// Where a walk stands: before the pairs from a key on, or after the pair that it gave last.
#[derive(Clone, Copy)]
pub(crate) enum Ahead<K, R> {
    From(K),
    After(K, R),
}

// The pairs of an index from a key on, in the order of their keys. Each is searched for when it is asked for, so that a walk
// that stops makes no search in vain.
#[derive(Drop)]
pub(crate) struct Pairs<'a, T, K, R> {
    index: &'a T,
    ahead: Ahead<K, R>,
    // As many as the index counts: so the walk ends over slots that break its rules, too.
    left: usize,
}

impl<'a, T: OrderedIndex<K, R>, K: Key, R: Copy> Pairs<'a, T, K, R> {
    pub(crate) fn from_key(index: &'a T, key: K) -> Self
        ensures lent { result.index.now ≡ index.now }
        ensures ascends { T.OrderedIndex.kept index.now → Ascending K.Key.before (T.OrderedIndex.row index.now) }
        ensures left { T.OrderedIndex.kept index.now → pairs_left K.Key.before T.OrderedIndex.row result ≡ from_key K.Key.before (T.OrderedIndex.row index.now) key }
    {
        Pairs {
            index,
            ahead: Ahead::From(key),
            left: index.count(),
        }
    }
}

impl<'a, T: OrderedIndex<K, R>, K: Key, R: Copy> Iterator for Pairs<'a, T, K, R> {
    type Item = (K, R);

    ghost remaining = { λ s. at_most s.left };

    ghost next_gives = { pairs_steps K.Key.before T.OrderedIndex.row T.OrderedIndex.kept };

    fn next(&mut self) -> Option<(K, R)> {
        self.left = self.left.checked_sub(1)?;
        let (key, value) = match self.ahead {
            Ahead::From(key) => self.index.at_or_above(key)?,
            Ahead::After(last, _) => self.index.above(last)?,
        };
        self.ahead = Ahead::After(key, value);
        Some((key, value))
    }
}
