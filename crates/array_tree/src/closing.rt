ghost use Rattle.array_tree.specs.Standing.{Closed};

use crate::{ArrayTree, FillingTree};
use ordered::Key;
use tree_index::refresh;

impl<'a, K: Key, R: Copy> FillingTree<'a, K, R> {
    // Fills the index slots, and yields a tree that is searched.
    pub fn close(self) -> ArrayTree<'a, K, R>
        ensures { Closed self.entry result }
    {
        let room = self.capacity();
        let FillingTree {
            slots,
            layout,
            count,
        } = self;
        if let Some(of) = layout {
            refresh(slots, of, 0, of.leaves - 1, None);
        }
        ArrayTree { slots, room, count }
    }
}
