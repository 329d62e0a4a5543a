ghost use Rattle.std.specs.Prelude.{◌<◌};
ghost use Rattle.tree_index.specs.Standing.{Stands, Target};
ghost use Rattle.tree_search.specs.Belongs.{OneLeaf};

use ordered::{Key, Slot};
use slot_rows::{Bound, rank};
use tree_layout::Layout;

// The target leaf of a key, the one leaf where it can be: down from the root, in each node to the child past the index
// slots whose key is not after it.
#[tactic(auto, using(crate::proofs::Walks::walked_small))]
pub fn target_leaf<K: Key, R: Copy>(slots: &[Slot<K, R>], layout: Layout, key: K) -> usize
    ensures within { result < layout.leaves }
    ensures target { Stands K.Key.before layout.width layout.height slots.now → Target K.Key.before layout.width layout.height slots.now key result }
    ensures one { OneLeaf K R K.Key.before }
{
    // A tree in these slots passes this; no access after it is out of bounds.
    if slots.len() < layout.slots() {
        return 0;
    }
    let width = layout.width;
    // The first node of the level, and the node in the level.
    let mut first = 0;
    let mut at = 0;
    for _ in 0..layout.height {
        let from = (first + at) * width;
        let child = rank(&slots[from..from + width], key, Bound::Upper);
        first = first * (width + 1) + 1;
        at = at * (width + 1) + child;
    }
    at
}
