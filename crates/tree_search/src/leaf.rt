ghost use Rattle.std.specs.Prelude.{◌≡◌, ◌<◌, ◌≤◌, not, [], length};
ghost use Rattle.ordered.specs.Meaning.{Ascending, lookup, first};
ghost use Rattle.ordered.specs.Slots.{pairs, Packed};
ghost use Rattle.slot_rows.specs.Ranks.{key_below};
ghost use Rattle.tree_layout.specs.Levels.{tree_slots, leaf_of};

use ordered::{Key, Slot};
use slot_rows::{Bound, rank, search};
use tree_layout::Layout;

// The slots of a leaf; none past the last leaf, and none if the tree does not stand in the slots.
#[tactic(auto, using(tree_index::proofs::Keys::leaf_within))]
pub fn leaf_slots<'a, K: Copy, R: Copy>(
    slots: &'a [Slot<K, R>],
    layout: Layout,
    leaf: usize,
) -> &'a [Slot<K, R>]
    ensures gives { tree_slots layout.width layout.height ≤ length slots.now → result.now ≡ leaf_of layout.width layout.height slots.now leaf }
    ensures none { length slots.now < tree_slots layout.width layout.height → result.now ≡ [] }
{
    if slots.len() < layout.slots() || leaf >= layout.leaves {
        return &[];
    }
    let from = layout.base + leaf * layout.width;
    &slots[from..from + layout.width]
}

// The value of a key in a leaf.
pub(crate) fn value_in<K: Key, R: Copy>(leaf: &[Slot<K, R>], key: K) -> Option<R>
    ensures { Packed leaf.now → Ascending K.Key.before (pairs leaf.now) → result ≡ lookup K.Key.before (pairs leaf.now) key }
{
    let at = search(leaf, key).ok()?;
    Some(leaf[at].value)
}

// The first pair of a leaf that is not below a key.
pub(crate) fn first_in<K: Key, R: Copy>(leaf: &[Slot<K, R>], key: K, bound: Bound) -> Option<(K, R)>
    ensures { Packed leaf.now → Ascending K.Key.before (pairs leaf.now) → result ≡ first (λ q. not (key_below bound K.Key.before key q)) (pairs leaf.now) }
{
    let slot = leaf.get(rank(leaf, key, bound))?;
    slot.filled.then_some((slot.key, slot.value))
}
