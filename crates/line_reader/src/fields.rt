ghost use Rattle.std.specs.Prelude.{◌≡◌, [], length, take, slice_index_or};
ghost use Rattle.line_reader.specs.Fields.{fields, word_of};
ghost use Rattle.line_reader.specs.Reads.{number_at, letter_at, place_at, known};

use crate::forms::{read_letter, read_number, read_place, read_word};
use crate::{Reason, Refused, Word};
use arrayvec::ArrayVec;
use logs::{Place, Species};
use std::marker::Model;

// As many fields as any word asks for, with the word itself, and one more, so that too many are seen to be too many.
const MOST_FIELDS: usize = 8;

// The first fields of a line, the word being 0.
#[derive(Drop)]
pub struct Fields<'a> {
    first: ArrayVec<&'a [u8], MOST_FIELDS>,
}

// Contracts see the bytes of each field.
impl<'a> Model for Fields<'a> {
    ghost use Rattle.std.specs.Prelude.{List, ℕ, map};

    ghost Value = { List (List ℕ) };

    ghost view = { λ line. map (λ field. field.now) line.first.items };
}

// What was read of the field k, or that nothing was.
fn known<T>(read: Option<T>, k: u8) -> Result<T, Refused>
    ensures { result ≡ known read k }
{
    read.ok_or(Refused::at(Reason::Unread, k))
}

impl<'a> Fields<'a> {
    pub(crate) fn split(line: &'a [u8]) -> Fields<'a>
        ensures { result ≡ take 8 (fields line.now) }
    {
        let mut first = ArrayVec::new();
        for field in line.split(|b| *b == b'\t').take(MOST_FIELDS) {
            first.push(field);
        }
        Fields { first }
    }

    pub(crate) fn count(&self) -> usize
        ensures { result ≡ length self.now }
    {
        self.first.len()
    }

    // The field at the place k; nothing past the last.
    fn field(&self, k: u8) -> &'a [u8]
        ensures { result.now ≡ slice_index_or self.now k [] }
    {
        self.first.get(k as usize).copied().unwrap_or_default()
    }

    pub(crate) fn word(&self) -> Option<Word>
        ensures { result ≡ word_of (slice_index_or self.now 0 []) }
    {
        read_word(self.field(0))
    }

    pub(crate) fn number(&self, k: u8) -> Result<u32, Refused>
        ensures { result ≡ number_at self.now k }
    {
        known(read_number(self.field(k)), k)
    }

    pub(crate) fn letter(&self, k: u8) -> Result<Species, Refused>
        ensures { result ≡ letter_at self.now k }
    {
        known(read_letter(self.field(k)), k)
    }

    pub(crate) fn place(&self, k: u8) -> Result<Place, Refused>
        ensures { result ≡ place_at self.now k }
    {
        known(read_place(self.field(k)), k)
    }
}
