ghost use Rattle.std.specs.Prelude.{◌≡◌};
ghost use Rattle.ordered.specs.Slots.{countable};
ghost use Rattle.tree_layout.specs.Laws.{Sums};
ghost use Rattle.tree_layout.specs.Levels.{leaf_slots, tree_slots};
ghost use Rattle.tree_layout.specs.Rows.{LayoutOf};

use crate::Layout;
use ordered::{Key, MOST_SLOTS};

impl Layout {
    // The layout of a row of `slots` slots for keys of the kind K, unless not even a root fits.
    #[tactic(auto, using(crate::proofs::Rows::grown_small, crate::proofs::Rows::grown_less, crate::proofs::Sums::sums))]
    pub fn of_row<K: Key>(slots: usize) -> Option<Layout>
        ensures laid { LayoutOf K.Key.WIDTH (countable slots) result }
        ensures sums { Sums }
    {
        let counted = slots.min(MOST_SLOTS);
        let width = K::WIDTH;
        if counted < width {
            return None;
        }
        let mut height = 0;
        let mut base = 0;
        let mut leaves = 1;
        // A tree one level higher has width + 1 times the slots, and width more.
        while (base + leaves * width) * (width + 1) + width <= counted {
            base += leaves * width;
            leaves *= width + 1;
            height += 1;
        }
        Some(Layout {
            width,
            height,
            base,
            leaves,
        })
    }

    // How many pairs the leaves have room for.
    #[tactic(auto, using(crate::proofs::Areas::layout_room, crate::proofs::Areas::layout_slots))]
    pub fn capacity(self) -> usize
        ensures { result ≡ leaf_slots self.width self.height }
    {
        self.leaves * self.width
    }

    // The slots of the whole tree.
    #[tactic(auto, using(crate::proofs::Areas::layout_slots))]
    pub fn slots(self) -> usize
        ensures { result ≡ tree_slots self.width self.height }
    {
        self.base + self.capacity()
    }
}
