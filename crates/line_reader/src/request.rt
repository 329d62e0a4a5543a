ghost use Rattle.std.specs.Prelude.{◌≡◌};
ghost use Rattle.line_reader.specs.Reasons.{reason_number, refusal};

use logs::{Call, Log};

// The first field of a line.
#[derive(Clone, Copy, Debug, PartialEq, Eq)]
pub enum Word {
    Log,
    Open,
    Arrive,
    Withdraw,
    Call,
    Saw,
    Back,
    Find,
    List,
}

// What a line asks for.
#[derive(Clone, Copy, Debug, PartialEq, Eq)]
pub enum Request {
    Log(Log),
    Open,
    Call(Call),
}

// Why a line asks for nothing, with its number.
#[derive(Clone, Copy, Debug, PartialEq, Eq)]
pub enum Reason {
    LongLine = 10,
    UnknownWord = 11,
    FieldCount = 12,
    Unread = 13,
    Outside = 14,
    Reversed = 15,
}

// A refusal of a line, and the field that it is about, the word being 0.
#[derive(Clone, Copy, Debug, PartialEq, Eq)]
pub struct Refused {
    pub reason: Reason,
    pub field: u8,
}

impl Refused {
    pub(crate) fn at(reason: Reason, field: u8) -> Refused
        ensures { result ≡ refusal reason field }
    {
        Refused { reason, field }
    }

    pub fn number(self) -> u8
        ensures { result ≡ reason_number self.reason }
    {
        self.reason as u8
    }

    pub fn position(self) -> u8
        ensures { result ≡ self.field }
    {
        self.field
    }
}
