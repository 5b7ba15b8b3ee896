// Why a scale declines a word.
ghost use Rattle.std.specs.Prelude.{◌≡◌};
ghost use Rattle.scale.specs.Numbers.{scale_number};

#[derive(Clone, Copy)]
pub enum ScaleFault {
    // The word is no entry of the scale.
    NoEntry,
}

impl ScaleFault {
    // The number that a user reads.
    pub fn number(self) -> u16
        ensures { result ≡ scale_number self }
    {
        match self {
            ScaleFault::NoEntry => 11,
        }
    }
}
