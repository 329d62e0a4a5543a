ghost use Rattle.std.specs.Prelude.{◌≡◌, ℕ, ◌<◌, length, IfOk};
ghost use Rattle.tree_layout.specs.Belongs.{Belongs};
ghost use Rattle.leaf_rows.specs.Leaves.{Leafed};
ghost use Rattle.leaf_rows.specs.Puts.{Puts};

use crate::leaves::Leaves;
use ordered::{Fault, Key, Slot};
use slot_rows::{push_down, push_up, search};

// Only leaves after `low` up to `high` may now begin with another key.
#[derive(Clone, Copy)]
pub struct Span {
    pub low: usize,
    pub high: usize,
}

// Puts a pair into leaf t, where its key belongs, or makes room for it from the nearest leaf with a free slot: up to there
// every slot is filled, so that one stretch moves by one place.
pub fn put<K: Key, R: Copy>(
    area: &mut [Slot<K, R>],
    t: usize,
    key: K,
    value: R,
) -> Result<Span, Fault>
    ensures within { IfOk result (λ span. span.high < length area.old) }
    ensures puts { (n : ℕ) → Leafed K.Key.before K.Key.WIDTH n area.old → Belongs K.Key.before K.Key.WIDTH n area.old key t → Puts K.Key.before K.Key.WIDTH n area.old key value t result area.new }
{
    let leaves = Leaves::of(area);
    if t >= leaves.count {
        return Err(Fault::Full);
    }
    let Err(at) = search(leaves.leaf(t), key) else {
        return Err(Fault::Present);
    };
    let Some(r) = leaves.nearest_free(t) else {
        return Err(Fault::Full);
    };
    let free = leaves.free_slot(r);
    let width = K::WIDTH;
    let place = t * width + at;
    let slot = Slot {
        filled: true,
        key,
        value,
    };
    if r < t {
        let next = (r + 1) * width;
        area[free] = area[next];
        push_down(&mut area[next..place], slot);
        Ok(Span { low: r, high: t })
    } else {
        push_up(&mut area[place.min(free)..free + 1], slot);
        Ok(Span { low: t, high: r })
    }
}
