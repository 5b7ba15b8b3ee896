// Weakest: numbers from 0 to 1,000, of which joining gives the lower.
ghost use Rattle.scale.specs.Levels.{Level, level, weakest};
ghost use Rattle.scale.specs.LevelLaws.{weakest_laws, same_level};
ghost use Rattle.std.specs.Prelude.{refl};
ghost use Rattle.std.proofs.Common.{arith, leb-false};

use crate::levels::TOP;
use crate::{Scale, ScaleFault, levels};

#[derive(Clone, Copy)]
pub struct Weakest {
    pub value: u32,
}

impl Scale for Weakest {
    ghost Exact = { Level };

    ghost rules = { weakest };

    ghost means = { λ c. level c.value };

    ghost within = { λ _ _. Unit {0} };

    ghost laws = { weakest_laws };

    ghost ties = { record { other = λ w h. same_level _ _ (omega (arith, leb-false w 1000 h)); blank = refl; reads_blank = refl; wider = λ m n v h k. tt } };

    fn neutral() -> Weakest {
        Weakest { value: TOP }
    }

    fn code() -> u16 {
        4
    }

    fn neutral_word() -> u32 {
        TOP
    }

    fn test(word: u32) -> Result<(), ScaleFault> {
        levels::test(word)
    }

    fn value_of(word: u32) -> Weakest {
        Weakest { value: word }
    }

    fn at_least(self, other: Weakest) -> bool {
        levels::at_least(self.value, other.value)
    }

    fn join(self, other: Weakest) -> Weakest {
        Weakest {
            value: levels::cut(self.value.min(other.value)),
        }
    }

    fn show(self) -> (i32, i32) {
        levels::show(self.value)
    }
}
