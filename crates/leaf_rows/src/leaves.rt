ghost use Rattle.std.specs.Prelude.{◌≡◌, ℕ, ◌+◌, ◌*◌, ◌/◌, ◌<◌, ◌≤◌, length, IfSome, MatchOption, nat_lt};
ghost use Rattle.ordered.specs.Slots.{Packed};
ghost use Rattle.tree_layout.specs.Levels.{leaf_at};
ghost use Rattle.leaf_rows.specs.Leaves.{count_at, Nearest};

use ordered::{Key, Slot};

// The leaves of a tree, one after the other; the key kind says how many slots each has.
#[derive(Drop)]
pub(crate) struct Leaves<'a, K: Key, R> {
    area: &'a [Slot<K, R>],
    pub(crate) count: usize,
    ghost within: { count * K.Key.WIDTH ≤ length area.now },
}

impl<'a, K: Key, R: Copy> Leaves<'a, K, R> {
    pub(crate) fn of(area: &'a [Slot<K, R>]) -> Leaves<'a, K, R>
        ensures area { result.area.now ≡ area.now }
        ensures count { result.count ≡ length area.now / K.Key.WIDTH }
    {
        let count = area.len() / K::WIDTH;
        Leaves { area, count }
    }

    // The slots of leaf p.
    pub(crate) fn leaf(&self, p: usize) -> &'a [Slot<K, R>]
        requires { p < self.now.count }
        ensures long { length result.now ≡ K.Key.WIDTH }
        ensures gives { result.now ≡ leaf_at K.Key.WIDTH self.now.area.now p }
    {
        let width = K::WIDTH;
        let start = p * width;
        &self.area[start..start + width]
    }

    // Whether leaf p has a free slot: in a packed leaf the last one is then blank.
    fn is_free(&self, p: usize) -> bool
        requires { p < self.now.count }
        ensures { Packed (leaf_at K.Key.WIDTH self.now.area.now p) → result ≡ nat_lt (count_at K.Key.WIDTH self.now.area.now p) K.Key.WIDTH }
    {
        !self.leaf(p)[K::WIDTH - 1].filled
    }

    // The first free slot of leaf r.
    pub(crate) fn free_slot(&self, r: usize) -> usize
        requires { r < self.now.count }
        ensures low { r * K.Key.WIDTH ≤ result }
        ensures high { result < r * K.Key.WIDTH + K.Key.WIDTH }
        ensures gives { Packed (leaf_at K.Key.WIDTH self.now.area.now r) → count_at K.Key.WIDTH self.now.area.now r < K.Key.WIDTH → result ≡ r * K.Key.WIDTH + count_at K.Key.WIDTH self.now.area.now r }
    {
        let width = K::WIDTH;
        let filled = self.leaf(r).partition_point(|slot| slot.filled);
        r * width + filled.min(width - 1)
    }

    // The leaf nearest to leaf t that has a free slot; of two equally near, the later.
    pub(crate) fn nearest_free(&self, t: usize) -> Option<usize>
        requires { t < self.now.count }
        ensures bound { IfSome result (λ q. q < self.now.count) }
        ensures gives { ((p : ℕ) → p < self.now.count → Packed (leaf_at K.Key.WIDTH self.now.area.now p)) → MatchOption result ((p : ℕ) → p < self.now.count → count_at K.Key.WIDTH self.now.area.now p < K.Key.WIDTH → ⊥) (λ q. Nearest K.Key.WIDTH self.now.count self.now.area.now t q) }
    {
        let mut far = 0;
        // The project's rules ask for a widening loop here that yields the leaf by `break`.
        loop {
            if far < self.count - t && self.is_free(t + far) {
                break Some(t + far);
            }
            if far <= t && self.is_free(t - far) {
                break Some(t - far);
            }
            if far == self.count {
                break None;
            }
            far += 1;
        }
    }
}
