ghost use Rattle.std.specs.Prelude.{◌≡◌, [], ◌∷◌};
ghost use Rattle.line_reader.specs.Fields.{number_of, read_on, at_most, well_begun, word_of, letter_of, place_of};

use crate::Word;
use logs::{Place, Species};

// Whether there are 1 to 10 bytes, and no 0 in front of others.
fn is_well_begun(digits: &[u8]) -> bool
    ensures { result ≡ well_begun digits.now }
{
    let n = digits.len();
    (1..=10).contains(&n) && (digits[0] != b'0' || n == 1)
}

// The number that a digit makes of the one before it.
fn read_digit(n: u32, d: u8) -> Option<u32>
    ensures { result ≡ at_most 4294967295 (read_on n (d ∷ [])) }
{
    match d {
        b'0'..=b'9' => n.checked_mul(10)?.checked_add(u32::from(d - b'0')),
        _ => None,
    }
}

pub(crate) fn read_number(digits: &[u8]) -> Option<u32>
    ensures { result ≡ number_of digits.now }
{
    if !is_well_begun(digits) {
        return None;
    }
    let mut n = 0;
    for d in digits {
        n = read_digit(n, *d)?;
    }
    Some(n)
}

pub(crate) fn read_letter(name: &[u8]) -> Option<Species>
    ensures { result ≡ letter_of name.now }
{
    match name {
        [letter] => Species::from_letter(*letter),
        _ => None,
    }
}

pub(crate) fn read_word(name: &[u8]) -> Option<Word>
    ensures { result ≡ word_of name.now }
{
    match name {
        b"LOG" => Some(Word::Log),
        b"OPEN" => Some(Word::Open),
        b"ARRIVE" => Some(Word::Arrive),
        b"WITHDRAW" => Some(Word::Withdraw),
        b"CALL" => Some(Word::Call),
        b"SAW" => Some(Word::Saw),
        b"BACK" => Some(Word::Back),
        b"FIND" => Some(Word::Find),
        b"LIST" => Some(Word::List),
        _ => None,
    }
}

pub(crate) fn read_place(name: &[u8]) -> Option<Place>
    ensures { result ≡ place_of name.now }
{
    match name {
        b"YARD" => Some(Place::Standing),
        b"SAW" => Some(Place::AtSaw),
        _ => None,
    }
}
