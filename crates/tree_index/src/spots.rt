ghost use Rattle.std.specs.Prelude.{◌<◌};
ghost use Rattle.tree_index.specs.Index.{IndexAt};

use tree_layout::Layout;

// The index slot of a leaf. The oftener width + 1 divides the leaf's number, the higher it stands; `first` is the
// first node of its level.
pub(crate) fn index_slot(layout: Layout, leaf: usize) -> usize
    requires some { 0 < leaf }
    requires within { leaf < layout.leaves }
    ensures { IndexAt layout.width layout.height leaf result }
{
    let each = layout.width + 1;
    let mut q = leaf;
    let mut first = (layout.base / layout.width - 1) / each;
    while q % each == 0 {
        q = q / each;
        first = (first - 1) / each;
    }
    (first + q / each) * layout.width + q % each - 1
}
