ghost use Rattle.std.specs.Prelude.{◌≤◌, length};
ghost use Rattle.array_tree.specs.Filling.{Blanked, slot_count};

use ordered::{Key, Slot};
use slot_rows::blank;
use tree_layout::Layout;

// Blanks the slots of the tree, and no other.
pub(crate) fn blank_tree<K: Key, R: Copy>(slots: &mut [Slot<K, R>], layout: Option<Layout>)
    requires { slot_count layout ≤ length slots.old }
    ensures { Blanked (slot_count layout) slots.old slots.new }
{
    let end = layout.map_or(0, Layout::slots);
    blank(&mut slots[0..end]);
}
