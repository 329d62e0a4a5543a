ghost use Rattle.std.specs.Prelude.{◌≡◌, ◌<◌, ◌≤◌, length, None, slice_set};
ghost use Rattle.ordered.specs.declared.slot.Slot.{Slot as Place};
ghost use Rattle.tree_layout.specs.Levels.{tree_slots};
ghost use Rattle.tree_index.specs.Index.{index_key, Names, RuleAt};
ghost use Rattle.tree_index.specs.Refreshing.{Refreshed};

use crate::spots::index_slot;
use ordered::{Key, Slot};
use tree_layout::Layout;

// The key that the index slot of a leaf names. Leaf 0 has no index slot.
pub fn index_key<K: Key, R: Copy>(slots: &[Slot<K, R>], layout: Layout, leaf: usize) -> Option<K>
    ensures none { leaf ≡ 0 → result ≡ None }
    ensures gives { 0 < leaf → tree_slots layout.width layout.height ≤ length slots.now → RuleAt layout.width layout.height slots.now leaf → result ≡ index_key layout.width layout.height slots.now leaf }
{
    // Of a tree in these slots, and a leaf above 0, only the leaves past the last end here.
    if slots.len() < layout.slots() || leaf == 0 || leaf >= layout.leaves {
        return None;
    }
    let slot = slots[index_slot(layout, leaf)];
    slot.filled.then_some(slot.key)
}

// Lets a slot name a key; its value stays, since no answer depends on it.
fn name_key<K: Copy, R: Copy>(slots: &mut [Slot<K, R>], at: usize, key: Option<K>)
    requires { at < length slots.old }
    ensures { (s : Place K R) × (slots.new ≡ slice_set slots.old at s) × Names s key }
{
    let slot = slots[at];
    slots[at] = Slot {
        filled: key.is_some(),
        key: key.unwrap_or(slot.key),
        ..slot
    };
}

// Sets the index slots of the leaves after `low` up to `high`, from the last to the first, carrying the first key
// found so far: before them that is `found`, the first key past leaf `high`.
#[tactic(auto, using(crate::proofs::Keys::head_within))]
pub fn refresh<K: Key, R: Copy>(
    slots: &mut [Slot<K, R>],
    layout: Layout,
    low: usize,
    high: usize,
    found: Option<K>,
)
    ensures { Refreshed layout.width layout.height slots.old slots.new low high found }
{
    // A tree in these slots with a leaf `high` passes this; no access after it is out of bounds.
    if slots.len() < layout.slots() || high >= layout.leaves {
        return;
    }
    let mut next = found;
    for before in (low..high).rev() {
        let leaf = before + 1;
        // The filled slots of a leaf come first.
        let head = slots[layout.base + leaf * layout.width];
        next = head.filled.then_some(head.key).or(next);
        name_key(slots, index_slot(layout, leaf), next);
    }
}
