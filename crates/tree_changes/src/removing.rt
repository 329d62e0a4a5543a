ghost use Rattle.std.specs.Prelude.{◌≡◌, ℕ, ◌+◌, ◌*◌, ◌<◌, ◌≤◌, true, false, length, slice_index_or, Err};
ghost use Rattle.ordered.specs.declared.fault.Fault.TheVariants.{Absent};
ghost use Rattle.ordered.specs.declared.slot.Slot.{Slot as Place};
ghost use Rattle.ordered.specs.Changes.{absent_refusal};
ghost use Rattle.tree_layout.specs.Levels.{tree_slots};
ghost use Rattle.tree_index.specs.Standing.{tree_row, Stands};
ghost use Rattle.tree_changes.specs.Changed.{Changed, Removed};

use ordered::{Fault, Key, Slot};
use slot_edits::remove;
use tree_index::{index_key, refresh};
use tree_layout::Layout;
use tree_search::target_leaf;

// The last leaf before this one that has a pair, or else leaf 0.
fn filled_before<K: Copy, R: Copy>(slots: &[Slot<K, R>], layout: Layout, leaf: usize) -> usize
    requires fits { tree_slots layout.width layout.height ≤ length slots.now }
    requires within { leaf < layout.leaves }
    ensures before { result ≤ leaf }
    ensures filled { 0 < result → (result < leaf) × ((d : Place K R) → (slice_index_or slots.now (layout.base + result * layout.width) d).filled ≡ true) }
    ensures last { (p : ℕ) (d : Place K R) → result < p → p < leaf → (slice_index_or slots.now (layout.base + p * layout.width) d).filled ≡ false }
{
    // The filled slots of a leaf come first.
    (0..leaf)
        .rev()
        .find(|low| slots[layout.base + *low * layout.width].filled)
        .unwrap_or(0)
}

// Takes the pair of a key out of the one leaf where it can be. Only a leaf's first pair is named by index slots: those of
// its leaf and of the empty leaves before it.
#[tactic(auto, using(tree_index::proofs::Keys::leaf_within))]
pub fn take_pair<K: Key, R: Copy>(
    slots: &mut [Slot<K, R>],
    layout: Layout,
    key: K,
) -> Result<(), Fault>
    ensures changes { Stands K.Key.before layout.width layout.height slots.old → Changed (absent_refusal K.Key.before (tree_row layout.width layout.height slots.old) key) (Removed K.Key.before layout.width layout.height slots.old key) slots.old result slots.new }
    ensures short { length slots.old < tree_slots layout.width layout.height → (result ≡ Err Absent) × (slots.new ≡ slots.old) }
{
    // A tree in these slots passes this; no access after it is out of bounds.
    if slots.len() < layout.slots() {
        return Err(Fault::Absent);
    }
    let target = target_leaf(slots, layout, key);
    let from = layout.base + target * layout.width;
    let to = from + layout.width;
    let at = remove(&mut slots[from..to], key)?;
    if at > 0 {
        return Ok(());
    }
    let low = filled_before(slots, layout, target);
    let found = index_key(slots, layout, target + 1);
    refresh(slots, layout, low, target, found);
    Ok(())
}
