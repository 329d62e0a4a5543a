ghost use Rattle.std.specs.Coded.{Coded-set};
ghost use Rattle.array_tree.specs.Filling.{Filling};
ghost use Rattle.array_tree.specs.Props.{filling_prop};

use ordered::{Key, Slot};
use tree_layout::Layout;

// A tree that is fed pairs in the order of their keys.
#[derive(Drop)]
pub struct FillingTree<'a, K: Key, R: Copy> {
    pub(crate) slots: &'a mut [Slot<K, R>],
    pub(crate) layout: Option<Layout>,
    pub(crate) count: usize,
    pub ghost fills: { Filling K.Key.before K.Key.WIDTH slots.now layout count } by { filling_prop (Coded-set K.code) (Coded-set R.code) K.Key.before K.Key.WIDTH slots.now layout count },
}
