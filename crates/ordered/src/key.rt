ghost use Rattle.std.specs.Prelude.{◌≡◌, ℕ, ◌≤◌, Bool};
ghost use Rattle.ordered.specs.Meaning.{Order};

// A kind of key: its strict order, and how many keys a tree of it has in a node.
pub trait Key: Copy {
    const WIDTH: usize;

    ghost WIDTH: { ℕ };

    ghost before: { Self → Self → Bool };

    fn is_before(&self, other: &Self) -> bool
        ensures { result ≡ before self.now other.now };

    ghost ordered: { Order before };

    ghost narrowest: { 2 ≤ WIDTH };

    ghost widest: { WIDTH ≤ 32 };
}
