ghost use Rattle.std.specs.Prelude.{◌≡◌, ◌<◌, length, Err};
ghost use Rattle.ordered.specs.declared.fault.Fault.TheVariants.{Full};
ghost use Rattle.ordered.specs.Changes.{put_refusal};
ghost use Rattle.tree_layout.specs.Levels.{leaf_slots, tree_slots};
ghost use Rattle.tree_index.specs.Standing.{tree_row, Stands};
ghost use Rattle.tree_changes.specs.Changed.{Changed, Landed};

use leaf_rows::put;
use ordered::{Fault, Key, Slot};
use tree_index::{index_key, refresh};
use tree_layout::Layout;
use tree_search::target_leaf;

// Puts a pair into the leaves, and renews the index slots of the leaves that may begin with another key.
pub fn put_pair<K: Key, R: Copy>(
    slots: &mut [Slot<K, R>],
    layout: Layout,
    key: K,
    value: R,
) -> Result<(), Fault>
    ensures changes { K.Key.WIDTH ≡ layout.width → Stands K.Key.before layout.width layout.height slots.old → Changed (put_refusal K.Key.before (leaf_slots layout.width layout.height) (tree_row layout.width layout.height slots.old) key) (Landed K.Key.before layout.width layout.height slots.old key value) slots.old result slots.new }
    ensures short { length slots.old < tree_slots layout.width layout.height → (result ≡ Err Full) × (slots.new ≡ slots.old) }
{
    let base = layout.base;
    let end = layout.slots();
    // A tree in these slots passes this; no access after it is out of bounds.
    if slots.len() < end {
        return Err(Fault::Full);
    }
    let target = target_leaf(slots, layout, key);
    let span = put(&mut slots[base..end], target, key, value)?;
    let found = index_key(slots, layout, span.high + 1);
    refresh(slots, layout, span.low, span.high, found);
    Ok(())
}
