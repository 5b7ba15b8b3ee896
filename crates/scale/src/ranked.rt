// Ranked: two numbers, of which the first counts first; joining adds both.
ghost use Rattle.std.specs.Prelude.{◌≡◌, ◌*◌, ◌/◌, ◌%◌, ℤ, ◌+ℤ◌, ◌-ℤ◌, refl, is_ok, IfOk};
ghost use Rattle.std.specs.Int.{w16, w32, int_wrapping_add, int_wrapping_sub};
ghost use Rattle.std.proofs.Common.{to_z, arith};
ghost use Rattle.scale.specs.Points.{Span};
ghost use Rattle.scale.specs.Ranks.{rank, rank_entry, rank_reads, ranked};
ghost use Rattle.scale.specs.RankLaws.{rank_laws, rank_gaps};
ghost use Rattle.scale.specs.Sums.{wider};

use crate::{Measuring, Scale, ScaleFault};

#[derive(Clone, Copy)]
pub struct Ranked {
    pub first: i32,
    pub second: i32,
}

// The lower and the upper half of a word.
fn halves(word: u32) -> (i16, i16)
    ensures { result ≡ (to_z w16 (word % 65536), to_z w16 (word / 65536)) }
{
    (
        ((word % 65536) as u16).cast_signed(),
        ((word / 65536) as u16).cast_signed(),
    )
}

// The two numbers that a word reads as; declines a word that is no entry.
fn entry(word: u32) -> Result<Ranked, ScaleFault>
    ensures entry { is_ok result ≡ rank_entry word }
    ensures value { IfOk result (λ p. rank p.first p.second ≡ rank_reads word) }
{
    let (first, second) = halves(word);
    let part = -1000..=1000;
    if part.contains(&first) && part.contains(&second) {
        Ok(Ranked {
            first: i32::from(first),
            second: i32::from(second),
        })
    } else {
        Err(ScaleFault::NoEntry)
    }
}

// The machine's sum and difference, wrapped where they pass its range; few enough entries never do, and to wrap costs least.
fn plus(a: Ranked, b: Ranked) -> Ranked
    ensures first { result.first ≡ int_wrapping_add w32 a.first b.first }
    ensures second { result.second ≡ int_wrapping_add w32 a.second b.second }
{
    Ranked {
        first: a.first.wrapping_add(b.first),
        second: a.second.wrapping_add(b.second),
    }
}

fn minus(a: Ranked, b: Ranked) -> Ranked
    ensures first { result.first ≡ int_wrapping_sub w32 a.first b.first }
    ensures second { result.second ≡ int_wrapping_sub w32 a.second b.second }
{
    Ranked {
        first: a.first.wrapping_sub(b.first),
        second: a.second.wrapping_sub(b.second),
    }
}

impl Scale for Ranked {
    ghost Exact = { ℤ × ℤ };

    ghost rules = { ranked };

    ghost means = { λ p. rank p.first p.second };

    ghost within = { λ n p. Span (1000 * n) p.first × Span (1000 * n) p.second };

    ghost laws = { rank_laws };

    ghost ties = { record { other = λ w h. rw h; blank = refl; reads_blank = refl; wider = λ m n v h k. (wider _ _ _ (omega arith) k.0, wider _ _ _ (omega arith) k.1) } };

    fn neutral() -> Ranked {
        Ranked {
            first: 0,
            second: 0,
        }
    }

    fn code() -> u16 {
        3
    }

    fn neutral_word() -> u32 {
        0
    }

    fn test(word: u32) -> Result<(), ScaleFault> {
        entry(word)?;
        Ok(())
    }

    fn value_of(word: u32) -> Ranked {
        entry(word).unwrap_or(Ranked::neutral())
    }

    fn at_least(self, other: Ranked) -> bool {
        // (`|` and `&` take no branch: which value is higher is not foreseen)
        (other.first < self.first) | ((other.first == self.first) & (other.second <= self.second))
    }

    fn join(self, other: Ranked) -> Ranked {
        plus(self, other)
    }

    fn show(self) -> (i32, i32) {
        (self.first, self.second)
    }
}

impl Measuring for Ranked {
    ghost gaps = { rank_gaps };

    fn gap(self, other: Ranked) -> Ranked {
        if self.at_least(other) {
            minus(self, other)
        } else {
            Ranked::neutral()
        }
    }
}
