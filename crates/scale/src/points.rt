// Points: whole numbers, which joining adds.
ghost use Rattle.std.specs.Prelude.{◌≡◌, ◌*◌, ℤ, ◌+ℤ◌, ◌-ℤ◌, refl, is_ok, IfOk};
ghost use Rattle.std.specs.Int.{w32, int_wrapping_add, int_wrapping_sub};
ghost use Rattle.scale.specs.Points.{points, points_entry, points_reads, Span};
ghost use Rattle.scale.specs.Whole.{whole_laws};
ghost use Rattle.std.proofs.Common.{arith, rules};
ghost use Rattle.scale.specs.Sums.{wider};

use crate::{Measuring, Scale, ScaleFault};

#[derive(Clone, Copy)]
pub struct Points {
    pub value: i32,
}

// The points that a word reads as; declines a word that is no entry.
fn entry(word: u32) -> Result<Points, ScaleFault>
    ensures entry { is_ok result ≡ points_entry word }
    ensures value { IfOk result (λ p. p.value ≡ points_reads word) }
{
    let value = word.cast_signed();
    if (-1_000_000..=1_000_000).contains(&value) {
        Ok(Points { value })
    } else {
        Err(ScaleFault::NoEntry)
    }
}

// The machine's sum and difference, wrapped where they pass its range; few enough entries never do, and to wrap costs least.
fn plus(a: Points, b: Points) -> Points
    ensures { result.value ≡ int_wrapping_add w32 a.value b.value }
{
    Points {
        value: a.value.wrapping_add(b.value),
    }
}

fn minus(a: Points, b: Points) -> Points
    ensures { result.value ≡ int_wrapping_sub w32 a.value b.value }
{
    Points {
        value: a.value.wrapping_sub(b.value),
    }
}

impl Scale for Points {
    ghost Exact = { ℤ };

    ghost rules = { points };

    ghost means = { λ p. p.value };

    ghost within = { λ n p. Span (1000000 * n) p.value };

    ghost laws = { whole_laws };

    ghost ties = { record { other = λ w h. rw h; blank = refl; reads_blank = refl; wider = λ m n v h k. wider _ _ _ (omega arith) k } };

    fn neutral() -> Points {
        Points { value: 0 }
    }

    fn code() -> u16 {
        1
    }

    fn neutral_word() -> u32 {
        0
    }

    fn test(word: u32) -> Result<(), ScaleFault> {
        entry(word)?;
        Ok(())
    }

    fn value_of(word: u32) -> Points {
        entry(word).unwrap_or(Points::neutral())
    }

    fn at_least(self, other: Points) -> bool {
        other.value <= self.value
    }

    fn join(self, other: Points) -> Points {
        plus(self, other)
    }

    fn show(self) -> (i32, i32) {
        (self.value, 0)
    }
}

impl Measuring for Points {
    ghost gaps = { Prim.search rules };

    fn gap(self, other: Points) -> Points {
        if other.value <= self.value {
            minus(self, other)
        } else {
            Points::neutral()
        }
    }
}
