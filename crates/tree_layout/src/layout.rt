ghost use Rattle.std.specs.Prelude.{◌≡◌, ◌+◌, ◌*◌, ◌^◌, ◌≤◌};
ghost use Rattle.tree_layout.specs.Levels.{starts, tree_slots};

// The tree of a row: `width` keys to a node, `height` levels above the leaves, `base` slots in those levels,
// and then the slots of `leaves` leaves. The ghost fields tie the numbers together and keep every sum small.
// It goes beside the slots, which some calls read and others change: a struct of both would be two, and no call shorter.
#[derive(Clone, Copy)]
pub struct Layout {
    pub width: usize,
    pub height: usize,
    pub base: usize,
    pub leaves: usize,
    ghost narrowest: { 2 ≤ width },
    ghost widest: { width ≤ 32 },
    ghost above: { base ≡ starts width height * width },
    ghost many: { leaves ≡ (width + 1) ^ height },
    ghost small: { tree_slots width height ≤ 1048575 },
}
