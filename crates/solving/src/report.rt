// The report of a solve.
ghost use Rattle.std.specs.Prelude.{◌≡◌, ℕ, false, replicate};
ghost use Rattle.theory.specs.Kept.{kept_at};

use forest::Links;
use scale::Scale;

#[derive(Clone, Copy)]
pub struct Report<V> {
    // The value of each variable; 0 past the last one.
    pub plan: [u8; 64],
    pub kept: Links,
    pub kept_count: u32,
    // The highest cut score that a plan has.
    pub tree: V,
    // What the plan scores.
    pub score: V,
    // The weight of the removed links.
    pub removed: V,
    // No plan scores above it.
    pub ceiling: V,
    // The score in thousandths of the ceiling.
    pub share: u64,
}

impl<V: Scale> Report<V> {
    // A place for a report, with nothing in it: no link is kept, and each value is 0 or neutral.
    pub fn blank() -> Report<V>
        ensures plan { result.plan ≡ replicate 64 0 }
        ensures kept { (n : ℕ) → kept_at result.kept.words n ≡ false }
        ensures numbers { (result.kept_count ≡ 0) × (result.share ≡ 0) }
        ensures figures { (V.Scale.means result.tree ≡ V.Scale.rules.neutral) × (V.Scale.means result.score ≡ V.Scale.rules.neutral) × (V.Scale.means result.removed ≡ V.Scale.rules.neutral) × (V.Scale.means result.ceiling ≡ V.Scale.rules.neutral) }
    {
        Report {
            plan: [0; 64],
            kept: Links::none(),
            kept_count: 0,
            tree: V::neutral(),
            score: V::neutral(),
            removed: V::neutral(),
            ceiling: V::neutral(),
            share: 0,
        }
    }
}
