ghost use Rattle.std.specs.Prelude.{◌≡◌, ◌<◌, length, Err};
ghost use Rattle.ordered.specs.declared.fault.Fault.TheVariants.{Absent};
ghost use Rattle.ordered.specs.Changes.{absent_refusal};
ghost use Rattle.tree_layout.specs.Levels.{tree_slots};
ghost use Rattle.tree_index.specs.Standing.{tree_row, Stands};
ghost use Rattle.tree_changes.specs.Changed.{Changed, Replaced};

use ordered::{Fault, Key, Slot};
use slot_edits::replace;
use tree_layout::Layout;
use tree_search::target_leaf;

// Replaces the value of a key, in the one leaf where it can be.
#[tactic(auto, using(tree_index::proofs::Keys::leaf_within))]
pub fn set_pair<K: Key, R: Copy>(
    slots: &mut [Slot<K, R>],
    layout: Layout,
    key: K,
    value: R,
) -> Result<(), Fault>
    ensures changes { Stands K.Key.before layout.width layout.height slots.old → Changed (absent_refusal K.Key.before (tree_row layout.width layout.height slots.old) key) (Replaced K.Key.before layout.width layout.height slots.old key value) slots.old result slots.new }
    ensures short { length slots.old < tree_slots layout.width layout.height → (result ≡ Err Absent) × (slots.new ≡ slots.old) }
{
    // A tree in these slots passes this; no access after it is out of bounds.
    if slots.len() < layout.slots() {
        return Err(Fault::Absent);
    }
    let target = target_leaf(slots, layout, key);
    let from = layout.base + target * layout.width;
    let to = from + layout.width;
    replace(&mut slots[from..to], key, value)
}
