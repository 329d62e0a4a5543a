ghost use Rattle.std.specs.Prelude.{◌≡◌};
ghost use Rattle.logs.specs.Codes.{code, letter_of, species_of};

// In the order of their codes.
#[derive(Clone, Copy, Debug, PartialEq, Eq, PartialOrd, Ord)]
pub enum Species {
    Spruce,
    Pine,
    Larch,
    Douglas,
}

impl Species {
    // The place of the species in the order of sizes.
    pub fn code(self) -> u8
        ensures { result ≡ code self }
    {
        self as u8
    }

    // Named methods and no `From`: a byte stands for a code or for a letter.
    pub fn letter(self) -> u8
        ensures { result ≡ letter_of self }
    {
        match self {
            Species::Spruce => b'S',
            Species::Pine => b'P',
            Species::Larch => b'L',
            Species::Douglas => b'D',
        }
    }

    pub fn from_letter(letter: u8) -> Option<Species>
        ensures { result ≡ species_of letter }
    {
        match letter as char {
            'S' => Some(Species::Spruce),
            'P' => Some(Species::Pine),
            'L' => Some(Species::Larch),
            'D' => Some(Species::Douglas),
            _ => None,
        }
    }
}
