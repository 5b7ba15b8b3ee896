// Capped: numbers from 0 to 1,000, which joining adds up to 1,000.
ghost use Rattle.scale.specs.Levels.{Level, level, capped};
ghost use Rattle.scale.specs.LevelLaws.{capped_laws, capped_gaps};
ghost use Rattle.std.proofs.Common.{rules};

use crate::{Measuring, Scale, ScaleFault, levels};

#[derive(Clone, Copy)]
pub struct Capped {
    pub value: u32,
}

impl Scale for Capped {
    ghost Exact = { Level };

    ghost rules = { capped };

    ghost means = { λ c. level c.value };

    ghost within = { λ _ _. Unit {0} };

    ghost laws = { capped_laws };

    ghost ties = { Prim.search rules };

    fn neutral() -> Capped {
        Capped { value: 0 }
    }

    fn code() -> u16 {
        2
    }

    fn neutral_word() -> u32 {
        0
    }

    fn test(word: u32) -> Result<(), ScaleFault> {
        levels::test(word)
    }

    fn value_of(word: u32) -> Capped {
        match levels::test(word) {
            Ok(()) => Capped { value: word },
            Err(_) => Capped::neutral(),
        }
    }

    fn at_least(self, other: Capped) -> bool {
        levels::at_least(self.value, other.value)
    }

    fn join(self, other: Capped) -> Capped {
        Capped {
            value: levels::cut(self.value.saturating_add(other.value)),
        }
    }

    fn show(self) -> (i32, i32) {
        levels::show(self.value)
    }
}

impl Measuring for Capped {
    ghost gaps = { capped_gaps };

    fn gap(self, other: Capped) -> Capped {
        Capped {
            value: levels::cut(self.value).saturating_sub(levels::cut(other.value)),
        }
    }
}
