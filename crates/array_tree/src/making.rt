ghost use Rattle.std.specs.Prelude.{◌≡◌};
ghost use Rattle.array_tree.specs.Filling.{capacity_of};
ghost use Rattle.array_tree.specs.Trees.{Made};

use crate::FillingTree;
use crate::blanking::blank_tree;
use ordered::{Key, Slot};
use tree_layout::Layout;

impl<'a, K: Key, R: Copy> FillingTree<'a, K, R> {
    // Makes an empty tree in the row.
    pub fn over(slots: &'a mut [Slot<K, R>]) -> FillingTree<'a, K, R>
        ensures { Made slots.old result }
    {
        let layout = Layout::of_row::<K>(slots.len());
        blank_tree(slots, layout);
        FillingTree {
            slots,
            layout,
            count: 0,
        }
    }

    // How many pairs were fed.
    pub fn count(&self) -> usize
        ensures { result ≡ self.now.count }
    {
        self.count
    }

    pub fn capacity(&self) -> usize
        ensures { result ≡ capacity_of self.now.layout }
    {
        self.layout.map_or(0, Layout::capacity)
    }
}
