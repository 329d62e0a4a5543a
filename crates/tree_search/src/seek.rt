ghost use Rattle.std.specs.Prelude.{◌≡◌, suc, ◌*◌, ◌<◌, true, not, drop};
ghost use Rattle.ordered.specs.Meaning.{lookup, first};
ghost use Rattle.ordered.specs.Slots.{pairs};
ghost use Rattle.slot_rows.specs.Ranks.{key_below};
ghost use Rattle.tree_layout.specs.Levels.{area};
ghost use Rattle.tree_index.specs.Standing.{Stands, tree_row};

use crate::descent::target_leaf;
use crate::leaf::{first_in, leaf_slots, value_in};
use ordered::{Key, Slot};
use slot_rows::Bound;
use tree_index::index_key;
use tree_layout::Layout;

// The value of a key in the tree.
pub fn find<K: Key, R: Copy>(slots: &[Slot<K, R>], layout: Layout, key: K) -> Option<R>
    ensures { Stands K.Key.before layout.width layout.height slots.now → result ≡ lookup K.Key.before (tree_row layout.width layout.height slots.now) key }
{
    let target = target_leaf(slots, layout, key);
    value_in(leaf_slots(slots, layout, target), key)
}

// The first pair past a leaf. The index slot of the next leaf names its key, so that no empty leaf is visited.
fn first_past<K: Key, R: Copy>(slots: &[Slot<K, R>], layout: Layout, leaf: usize) -> Option<(K, R)>
    requires { leaf < layout.leaves }
    ensures { Stands K.Key.before layout.width layout.height slots.now → result ≡ first (λ _. true) (pairs (drop (suc leaf * layout.width) (area layout.width layout.height slots.now))) }
{
    let key = index_key(slots, layout, leaf + 1)?;
    let value = find(slots, layout, key)?;
    Some((key, value))
}

// The first pair of the tree that is not below a key.
pub fn first_from<K: Key, R: Copy>(
    slots: &[Slot<K, R>],
    layout: Layout,
    key: K,
    bound: Bound,
) -> Option<(K, R)>
    ensures { Stands K.Key.before layout.width layout.height slots.now → result ≡ first (λ q. not (key_below bound K.Key.before key q)) (tree_row layout.width layout.height slots.now) }
{
    let target = target_leaf(slots, layout, key);
    let leaf = leaf_slots(slots, layout, target);
    first_in(leaf, key, bound).or_else(|| first_past(slots, layout, target))
}
