// A join of several values of a scale.
#![tactic(auto)]

ghost use Rattle.std.specs.Prelude.{ℕ, ◌<◌};
ghost use Rattle.joining.specs.Given.{JoinOfGiven};

use scale::Scale;

fn joined_below<V: Scale, F: Fn(usize) -> Option<V>>(count: usize, given: F) -> V
    requires { (n : ℕ) → n < count → F.pre given n }
    ensures { JoinOfGiven V.Scale.rules V.Scale.means V.Scale.within count (F.post given) result }
{
    let mut sum = V::neutral();
    for number in 0..count {
        if let Some(value) = given(number) {
            sum = sum.join(value);
        }
    }
    sum
}

// The values that are given at the numbers below `count`, joined in number order; neutral if there are none.
pub fn joined<V: Scale, F: Fn(usize) -> Option<V>>(count: usize, given: F) -> V
    requires { (n : ℕ) → n < count → F.pre given n }
    ensures { JoinOfGiven V.Scale.rules V.Scale.means V.Scale.within count (F.post given) result }
{
    joined_below(count, given)
}
