ghost use Rattle.std.specs.Prelude.{◌≡◌, List, [], ◌∷◌, ◌++◌, length, take, drop};
ghost use Rattle.ordered.specs.Slots.{Blank};

use ordered::Slot;

// Moves every slot one place up and puts the slot first; the last one falls off.
pub fn push_up<K: Copy, R: Copy>(part: &mut [Slot<K, R>], slot: Slot<K, R>)
    ensures { part.new ≡ take (length part.old) (slot ∷ part.old) }
{
    if part.is_empty() {
        return;
    }
    part.rotate_right(1);
    part[0] = slot;
}

// Moves every slot one place down and puts the slot last; the first one falls off.
pub fn push_down<K: Copy, R: Copy>(part: &mut [Slot<K, R>], slot: Slot<K, R>)
    ensures { part.new ≡ drop 1 (part.old ++ (slot ∷ [])) }
{
    if part.is_empty() {
        return;
    }
    part.rotate_left(1);
    let last = part.len() - 1;
    part[last] = slot;
}

// Blanks every slot; what key and value it then has is free.
pub fn blank<K: Copy, R: Copy>(part: &mut [Slot<K, R>])
    ensures { Blank part.new }
{
    for slot in part.iter_mut() {
        slot.filled = false;
    }
}
