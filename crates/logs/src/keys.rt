ghost use Rattle.std.specs.Prelude.{◌≡◌, ℕ, ◌≤◌, Bool, true, false, Decides};
ghost use Rattle.std.proofs.Common.{rules};
ghost use Rattle.logs.specs.Limits.{TagOk};
ghost use Rattle.logs.specs.Orders.{tag_before, size_before};
ghost use Rattle.logs.specs.Lex.{tag_order, size_order};

use crate::{Limits, Species};
use ordered::Key;

#[derive(Clone, Copy, Debug, PartialEq, Eq, PartialOrd, Ord)]
pub struct Tag(pub u32);

impl Tag {
    pub fn fits(self) -> bool
        ensures { Decides result (TagOk self.0) }
    {
        Limits::TAG.allow(self.0)
    }
}

impl Key for Tag {
    const WIDTH: usize = 15;

    ghost WIDTH = { 15 };

    ghost before = { tag_before };

    ghost ordered = { tag_order };

    ghost narrowest = { Prim.search rules };

    ghost widest = { Prim.search rules };

    fn is_before(&self, other: &Tag) -> bool {
        self < other
    }
}

// Compared by its fields in this sequence. The tag comes last: it tells logs of one size apart.
#[derive(Clone, Copy, Debug, PartialEq, Eq, PartialOrd, Ord)]
pub struct Size {
    pub species: Species,
    pub diameter: u16,
    pub length: u16,
    pub tag: u32,
}

impl Key for Size {
    const WIDTH: usize = 7;

    ghost WIDTH = { 7 };

    ghost before = { size_before };

    ghost ordered = { size_order };

    ghost narrowest = { Prim.search rules };

    ghost widest = { Prim.search rules };

    fn is_before(&self, other: &Size) -> bool {
        self < other
    }
}
