ghost use Rattle.std.specs.Prelude.{◌≡◌};
ghost use Rattle.yard_desk.specs.declared.refusal.Refusal.TheVariants.{Line, Load, Yard};
ghost use Rattle.yard_desk.specs.Refusals.{refusal_number, refusal_position};

use line_reader::Refused;
use ordered::Fault;

// Why a desk refuses a line, whichever layer found the reason.
#[derive(Clone, Copy)]
pub enum Refusal {
    Line(Refused),
    NotOpen,
    AlreadyOpen,
    Load(Fault),
    Yard(log_yard::Refusal),
}

// The conversions are written out, since contracts name what `?` makes of an error.
impl From<Refused> for Refusal {
    ghost from_gives = { λ e r. r ≡ Line e };

    fn from(refused: Refused) -> Refusal {
        Refusal::Line(refused)
    }
}

impl From<Fault> for Refusal {
    ghost from_gives = { λ f r. r ≡ Load f };

    fn from(fault: Fault) -> Refusal {
        Refusal::Load(fault)
    }
}

impl From<log_yard::Refusal> for Refusal {
    ghost from_gives = { λ e r. r ≡ Yard e };

    fn from(why: log_yard::Refusal) -> Refusal {
        Refusal::Yard(why)
    }
}

impl Refusal {
    // A match, since variants with a value have no number of their own.
    pub fn number(self) -> u8
        ensures { result ≡ refusal_number self }
    {
        match self {
            Refusal::Line(refused) => refused.number(),
            Refusal::NotOpen => 20,
            Refusal::AlreadyOpen => 27,
            Refusal::Load(fault) => fault.number(),
            Refusal::Yard(refusal) => refusal.number(),
        }
    }

    // The field that the refusal is about; 0 where it is about none.
    pub fn position(self) -> u8
        ensures { result ≡ refusal_position self }
    {
        match self {
            Refusal::Line(refused) => refused.position(),
            Refusal::NotOpen | Refusal::AlreadyOpen => 0,
            Refusal::Load(_) => 0,
            Refusal::Yard(_) => 0,
        }
    }
}
