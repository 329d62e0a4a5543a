// A pair replaced in packed slots, or taken out of them, for every make of an index.
#![tactic(auto)]

ghost use Rattle.std.specs.Prelude.{◌≡◌, ◌<◌, length, IfOk};
ghost use Rattle.ordered.specs.Changes.{absent_refusal};
ghost use Rattle.ordered.specs.Meaning.{Ascending, updated, removed};
ghost use Rattle.ordered.specs.Slots.{pairs, Packed};
ghost use Rattle.slot_edits.specs.Edits.{Edited, before};

use ordered::{Fault, Key, Slot};
use slot_rows::{push_down, search};

// Replaces the value of a key.
pub fn replace<K: Key, R: Copy>(part: &mut [Slot<K, R>], key: K, value: R) -> Result<(), Fault>
    ensures { Packed part.old → Ascending K.Key.before (pairs part.old) → Edited part.old (absent_refusal K.Key.before (pairs part.old) key) (updated K.Key.before (pairs part.old) key value) result part.new }
{
    let Ok(at) = search(part, key) else {
        return Err(Fault::Absent);
    };
    part[at].value = value;
    Ok(())
}

// Takes the pair of a key out; those after it move one place down. Gives the place that it had.
pub fn remove<K: Key, R: Copy>(part: &mut [Slot<K, R>], key: K) -> Result<usize, Fault>
    ensures edits { Packed part.old → Ascending K.Key.before (pairs part.old) → Edited part.old (absent_refusal K.Key.before (pairs part.old) key) (removed K.Key.before (pairs part.old) key) result part.new }
    ensures place { Packed part.old → Ascending K.Key.before (pairs part.old) → IfOk result (λ at. at ≡ before K.Key.before key (pairs part.old)) }
    ensures within { IfOk result (λ at. at < length part.old) }
{
    let Ok(at) = search(part, key) else {
        return Err(Fault::Absent);
    };
    let gone = Slot {
        filled: false,
        ..part[at]
    };
    push_down(&mut part[at..], gone);
    Ok(at)
}
