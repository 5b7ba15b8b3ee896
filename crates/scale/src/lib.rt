// Scales: what the entries of tables and the scores of plans are counted in.
#![tactic(auto)]

ghost use Rattle.std.specs.Prelude.{◌≡◌, ℕ, ◌+◌, ◌≤◌, is_ok};
ghost use Rattle.scale.specs.Laws.{Plain, EntryLaws, Gaps};
ghost use Rattle.scale.specs.Rules.{Rules};

mod capped;
mod fault;
mod levels;
mod order;
mod points;
mod ranked;
mod weakest;

pub use capped::Capped;
pub use fault::ScaleFault;
pub use order::{higher, lower};
pub use points::Points;
pub use ranked::Ranked;
pub use weakest::Weakest;

// A plain scale. `Self` is a value of it, as the machine holds it.
pub trait Scale: Copy {
    // The exact values, with no bound, and their rules: order, joining, entries, how a value is shown.
    ghost Exact: { Type 0 };

    ghost rules: { Rules Exact };

    // The exact value that a value stands for.
    ghost means: { Self → Exact };

    // What is joined of at most so many entries; a gap counts as two.
    ghost within: { ℕ → Self → Type 0 };

    // Joining it alters nothing.
    fn neutral() -> Self
        ensures means { means result ≡ rules.neutral }
        ensures within { within 0 result };

    // The scale's number in a problem file.
    fn code() -> u16
        ensures { result ≡ rules.code };

    // An entry that reads as the neutral value.
    fn neutral_word() -> u32
        ensures { result ≡ rules.neutral_word };

    // Declines a word that is no entry.
    fn test(word: u32) -> Result<(), ScaleFault>
        ensures { is_ok result ≡ rules.entry word };

    // The value that a word reads as; neutral if it is no entry.
    fn value_of(word: u32) -> Self
        ensures means { means result ≡ rules.reads word }
        ensures within { within 1 result };

    // Whether this value is at least as high as the other. (Not `Ord`: a derive would tell apart what stands for one value, as 1,000 and 1,001 do for a level, and by hand each scale would need four impls.)
    fn at_least(self, other: Self) -> bool
        ensures { result ≡ rules.leq (means other) (means self) };

    // Exact for at most 1,024 entries in all.
    fn join(self, other: Self) -> Self
        ensures { (m n : ℕ) → within m self → within n other → m + n ≤ 1024 → (means result ≡ rules.join (means self) (means other)) × within (m + n) result };

    // The value as two whole numbers, first and second.
    fn show(self) -> (i32, i32)
        ensures { result ≡ rules.shown (means self) };

    ghost laws: { Plain rules };

    ghost ties: { EntryLaws rules within };
}

// A plain scale that can also say by how much one value is above another.
pub trait Measuring: Scale {
    // The gap of this value over the other; neutral if this one is lower.
    fn gap(self, other: Self) -> Self
        ensures { (m n : ℕ) → Self.Scale.within m self → Self.Scale.within n other → m + n ≤ 1024 → (Self.Scale.means result ≡ Self.Scale.rules.gap (Self.Scale.means self) (Self.Scale.means other)) × Self.Scale.within (m + n) result };

    ghost gaps: { Gaps Self.Scale.rules };
}

// The gap's laws, for all values of a measuring scale: the lower value joined with the gap reaches the higher, no gap is below neutral, and
// where the first value is lower the gap is neutral.
pub fn gap_laws<V: Measuring>()
    ensures { Gaps V.Scale.rules }
{}
