ghost use Rattle.std.specs.Prelude.{Decides};
ghost use Rattle.logs.specs.Limits.{BodyOk};

use crate::{Limits, Species};

#[derive(Clone, Copy, Debug, PartialEq, Eq)]
pub enum Place {
    Standing,
    AtSaw,
}

// The diameter is in millimetres, the length in centimetres.
#[derive(Clone, Copy, Debug, PartialEq, Eq)]
pub struct Body {
    pub species: Species,
    pub diameter: u16,
    pub length: u16,
    pub bay: u8,
}

impl Body {
    // Whether each number is within its limits.
    pub fn fits(self) -> bool
        ensures { Decides result (BodyOk self) }
    {
        Limits::DIAMETER.allow(u32::from(self.diameter))
            && Limits::LENGTH.allow(u32::from(self.length))
            && Limits::BAY.allow(u32::from(self.bay))
    }
}

// All of a log but its tag.
#[derive(Clone, Copy, Debug, PartialEq, Eq)]
pub struct Rest {
    pub body: Body,
    pub place: Place,
}

#[derive(Clone, Copy, Debug, PartialEq, Eq)]
pub struct Log {
    pub tag: u32,
    pub rest: Rest,
}
