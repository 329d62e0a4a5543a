ghost use Rattle.std.specs.Prelude.{◌≡◌};
ghost use Rattle.ordered.specs.Faults.{fault_number};

// Why an index refuses a change.
#[derive(Clone, Copy, Debug, PartialEq, Eq)]
pub enum Fault {
    NotAfter = 31,
    Full = 32,
    Present = 33,
    Absent = 34,
}

impl Fault {
    pub fn number(self) -> u8
        ensures { result ≡ fault_number self }
    {
        self as u8
    }
}
