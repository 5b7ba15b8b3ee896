// Marks: penalties, of which fewer are higher, and then marks in halves; joining adds both.
ghost use Rattle.std.specs.Prelude.{◌≡◌, ◌+◌, ◌-◌, ◌*◌, ◌/◌, ◌%◌, min, ℤ, pos, ◌+ℤ◌, ◌-ℤ◌, refl, is_ok, IfOk};
ghost use Rattle.std.specs.Int.{saturate_to_bits};
ghost use Rattle.std.proofs.Common.{arith};
ghost use Rattle.scale.specs.Levels.{Level, level};
ghost use Rattle.scale.specs.Points.{Span};
ghost use Rattle.scale.specs.Sums.{wider};
ghost use Rattle.house.specs.Marks.{mark, mark_entry, marks};
ghost use Rattle.house.specs.MarkLaws.{mark_laws, mark_gaps};

use scale::{Measuring, Scale, ScaleFault};

// Full marks, in halves; what is above counts as full.
const FULL: u32 = 1000;

// The most halves and the most penalties of one entry.
const MOST_HALVES: u32 = 200;

const MOST_PENALTIES: u32 = 20;

#[derive(Clone, Copy)]
pub struct Marks {
    pub penalties: i32,
    pub halves: u32,
}

// The word of an entry: penalties in its upper half, halves in its lower.
pub fn word_of(penalties: u16, halves: u16) -> u32
    ensures penalties { result / 65536 ≡ penalties }
    ensures halves { result % 65536 ≡ halves }
{
    65536 * u32::from(penalties) + u32::from(halves)
}

fn cut(halves: u32) -> u32
    ensures { result ≡ min halves 1000 }
{
    halves.min(FULL)
}

// The marks that a word reads as; declines a word that is no entry.
fn entry(word: u32) -> Result<Marks, ScaleFault>
    ensures entry { is_ok result ≡ mark_entry word }
    ensures value { IfOk result (λ m. (m.penalties ≡ pos (word / 65536)) × (m.halves ≡ word % 65536)) }
{
    let halves = word % 65536;
    let penalties = word / 65536;
    if halves <= MOST_HALVES && penalties <= MOST_PENALTIES {
        Ok(Marks {
            penalties: penalties as i32,
            halves,
        })
    } else {
        Err(ScaleFault::NoEntry)
    }
}

// The machine's sum and difference of penalties, cut where they pass its range; few enough entries never do.
fn plus(a: Marks, b: Marks) -> Marks
    ensures penalties { result.penalties ≡ saturate_to_bits 31 (a.penalties +ℤ b.penalties) }
    ensures halves { result.halves ≡ min a.halves 1000 + min b.halves 1000 }
{
    Marks {
        penalties: a.penalties.saturating_add(b.penalties),
        halves: cut(a.halves) + cut(b.halves),
    }
}

fn minus(a: Marks, b: Marks) -> Marks
    ensures penalties { result.penalties ≡ saturate_to_bits 31 (a.penalties -ℤ b.penalties) }
    ensures halves { result.halves ≡ min a.halves 1000 - min b.halves 1000 }
{
    Marks {
        penalties: a.penalties.saturating_sub(b.penalties),
        halves: cut(a.halves).saturating_sub(cut(b.halves)),
    }
}

impl Scale for Marks {
    ghost Exact = { ℤ × Level };

    ghost rules = { marks };

    ghost means = { λ m. mark m.penalties (level m.halves) };

    ghost within = { λ n m. Span (20 * n) m.penalties };

    ghost laws = { mark_laws };

    ghost ties = { record { other = λ w h. rw h; blank = refl; reads_blank = refl; wider = λ m n v h k. wider _ _ _ (omega arith) k } };

    fn neutral() -> Marks {
        Marks {
            penalties: 0,
            halves: 0,
        }
    }

    fn code() -> u16 {
        101
    }

    fn neutral_word() -> u32 {
        0
    }

    fn test(word: u32) -> Result<(), ScaleFault> {
        entry(word)?;
        Ok(())
    }

    fn value_of(word: u32) -> Marks {
        entry(word).unwrap_or(Marks::neutral())
    }

    fn at_least(self, other: Marks) -> bool {
        self.penalties < other.penalties
            || self.penalties == other.penalties && cut(other.halves) <= cut(self.halves)
    }

    fn join(self, other: Marks) -> Marks {
        plus(self, other)
    }

    // Tenths of a mark, and penalties.
    fn show(self) -> (i32, i32) {
        (5 * cut(self.halves) as i32, self.penalties)
    }
}

impl Measuring for Marks {
    ghost gaps = { mark_gaps };

    fn gap(self, other: Marks) -> Marks {
        if self.at_least(other) {
            minus(self, other)
        } else {
            Marks::neutral()
        }
    }
}
