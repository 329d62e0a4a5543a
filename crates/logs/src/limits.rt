ghost use Rattle.std.specs.Prelude.{◌≡◌, Decides};
ghost use Rattle.logs.specs.Limits.{allows, Within};

// The least and the largest number that is allowed.
#[derive(Clone, Copy)]
pub struct Limits {
    pub low: u32,
    pub high: u32,
}

impl Limits {
    pub const TAG: Limits = Limits {
        low: 1,
        high: u32::MAX,
    };
    // in millimetres
    pub const DIAMETER: Limits = Limits {
        low: 80,
        high: 1200,
    };
    // in centimetres
    pub const LENGTH: Limits = Limits {
        low: 100,
        high: 1500,
    };

    pub const BAY: Limits = Limits { low: 1, high: 200 };

    pub fn allow(self, n: u32) -> bool
        ensures gives { result ≡ allows self n }
        ensures decides { Decides result (Within self n) }
    {
        self.low <= n && n <= self.high
    }
}
