use ordered::{Key, Slot};

// A tree that is searched and changed. Its layout follows from the number of its slots: a layout beside the lent slots would
// keep the tree from being a type argument, as a yard's index is. So only its capacity stands here, a plain number.
#[derive(Drop)]
pub struct ArrayTree<'a, K: Key, R: Copy> {
    pub(crate) slots: &'a mut [Slot<K, R>],
    pub(crate) room: usize,
    pub(crate) count: usize,
}
