ghost use Rattle.std.specs.Prelude.{◌≡◌};
ghost use Rattle.log_yard.specs.Refusals.{refusal_number, open_number};

// Why a call is refused.
#[derive(Clone, Copy, Debug, PartialEq, Eq)]
pub enum Refusal {
    Outside = 14,
    Reversed = 15,
    Present = 21,
    Absent = 22,
    AtSaw = 23,
    Standing = 24,
    Full = 25,
    NoneFits = 26,
}

impl Refusal {
    pub fn number(self) -> u8
        ensures { result ≡ refusal_number self }
    {
        self as u8
    }
}

// Why two indexes are not opened as a yard.
#[derive(Clone, Copy, Debug, PartialEq, Eq)]
pub enum OpenRefusal {
    NotEmpty = 28,
    OutsideLimits = 29,
    TooMany = 30,
}

impl OpenRefusal {
    pub fn number(self) -> u8
        ensures { result ≡ open_number self }
    {
        self as u8
    }
}
