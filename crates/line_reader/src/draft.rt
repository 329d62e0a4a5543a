ghost use Rattle.std.specs.Prelude.{◌≡◌, ℕ, ◌≤◌, IfOk};
ghost use Rattle.line_reader.specs.Reads.{within, drafted, fitted};

use crate::fields::Fields;
use crate::{Reason, Refused};
use logs::{Body, Limits, Species};

// The number of the field k, if the limits allow it.
pub(crate) fn check(limits: Limits, n: u32, k: u8) -> Result<u32, Refused>
    ensures gives { result ≡ within limits n k }
    ensures most { IfOk result (λ x. x ≤ limits.high) }
{
    if limits.allow(n) {
        Ok(n)
    } else {
        Err(Refused::at(Reason::Outside, k))
    }
}

// The fields of a log as they were read, not yet held against the limits.
#[derive(Clone, Copy)]
pub struct Draft {
    tag: u32,
    species: Species,
    diameter: u32,
    length: u32,
    bay: u32,
}

impl Draft {
    pub(crate) fn read(line: &Fields) -> Result<Draft, Refused>
        ensures { result ≡ drafted line.now }
    {
        let tag = line.number(1)?;
        let species = line.letter(2)?;
        let diameter = line.number(3)?;
        let length = line.number(4)?;
        let bay = line.number(5)?;
        Ok(Draft {
            tag,
            species,
            diameter,
            length,
            bay,
        })
    }

    pub(crate) fn fit(self) -> Result<(u32, Body), Refused>
        ensures { result ≡ fitted self }
    {
        let tag = check(Limits::TAG, self.tag, 1)?;
        // Within its limits each number fits the smaller type.
        let diameter = check(Limits::DIAMETER, self.diameter, 3)? as u16;
        let length = check(Limits::LENGTH, self.length, 4)? as u16;
        let bay = check(Limits::BAY, self.bay, 5)? as u8;
        Ok((
            tag,
            Body {
                species: self.species,
                diameter,
                length,
                bay,
            },
        ))
    }
}
