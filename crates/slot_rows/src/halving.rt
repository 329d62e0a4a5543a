ghost use Rattle.std.specs.Prelude.{◌≡◌, ℕ, ◌<◌, ◌≤◌, length, not, position, MatchResult};
ghost use Rattle.slot_rows.specs.declared.halving.Bound.TheVariants.{Lower};
ghost use Rattle.slot_rows.specs.Ranks.{below, lead, located, Falling};

use ordered::{Key, Slot};

// A value and no closure: the definitions speak of it, and no contract needs a closure's relation.
// Which slots count as below a key.
#[derive(Clone, Copy)]
pub enum Bound {
    // Those with a key before it.
    Lower,
    // Those with a key that is not after it.
    Upper,
}

fn is_below<K: Key, R: Copy>(slot: &Slot<K, R>, key: &K, bound: Bound) -> bool
    ensures { result ≡ below bound K.Key.before key.now slot.now }
{
    slot.filled
        && match bound {
            Bound::Lower => slot.key.is_before(key),
            Bound::Upper => !key.is_before(&slot.key),
        }
}

// The first slot that is not below the key.
fn first_not_below<K: Key, R: Copy>(slots: &[Slot<K, R>], key: K, bound: Bound) -> Option<usize>
    ensures { result ≡ position (λ s. not (below bound K.Key.before key s)) slots.now }
{
    slots.iter().position(|slot| !is_below(slot, &key, bound))
}

// Up to so many slots, as in a node, are looked at one after another: that is faster than halving them.
const FEW: usize = 16;

// How many slots are below the key, where those that are come first.
pub fn rank<K: Key, R: Copy>(slots: &[Slot<K, R>], key: K, bound: Bound) -> usize
    ensures within { result ≤ length slots.now }
    ensures gives { Falling (below bound K.Key.before key) slots.now → result ≡ lead (below bound K.Key.before key) slots.now }
{
    if slots.len() <= FEW {
        return first_not_below(slots, key, bound).unwrap_or(slots.len());
    }
    slots.partition_point(|slot| is_below(slot, &key, bound))
}

// Where the key stands, or else where it would be put.
pub fn search<K: Key, R: Copy>(slots: &[Slot<K, R>], key: K) -> Result<usize, usize>
    ensures within { MatchResult result (λ at. at < length slots.now) (λ at. at ≤ length slots.now) }
    ensures gives { Falling (below Lower K.Key.before key) slots.now → result ≡ located K.Key.before key slots.now }
{
    let at = rank(slots, key, Bound::Lower);
    match slots.get(at) {
        Some(slot) if is_below(slot, &key, Bound::Upper) => Ok(at),
        _ => Err(at),
    }
}
