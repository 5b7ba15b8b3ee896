// The score of a list of values.
ghost use Rattle.std.specs.Prelude.{◌≡◌, ℕ, ◌<◌, ◌≤◌, length, MatchBool, slice_index};
ghost use Rattle.theory.specs.Problem.{variables, Valid, score};
ghost use Rattle.theory.specs.Refusals.{Answered, list_tests};
ghost use Rattle.rules.specs.Figures.{planned};
ghost use Rattle.layout.specs.Numbers.{problem_number};
ghost use Rattle.tables.specs.View.{problem_of};
ghost use Rattle.calls.specs.State.{Call};
ghost use Rattle.calls.specs.Step.{unreported};
ghost use Rattle.calls.specs.Tests.{tests};

use layout::ProblemFault;
use scale::Scale;
use tables::{Tables, score};

// Whether some value is not below the size at its place.
fn has_no_value(list: &[usize], sizes: &[u8]) -> bool
    requires { length list.now ≡ length sizes.now }
    ensures { MatchBool result ((v : ℕ) × (v < length sizes.now) × (slice_index sizes.now v ≤ slice_index list.now v)) ((v : ℕ) → v < length sizes.now → slice_index list.now v < slice_index sizes.now v) }
{
    list.iter()
        .zip(sizes)
        .any(|(value, size)| *value >= *size as usize)
}

// Declines a list that has not one value for each variable.
fn check_list(tables: &Tables, list: &[usize]) -> Result<(), ProblemFault>
    ensures { Answered problem_number (list_tests (problem_of tables.now) list.now) (λ _. (length list.now ≡ variables (problem_of tables.now)) × Valid (problem_of tables.now) (planned list.now)) result }
{
    let sizes = tables.layout.domains();
    if list.len() != sizes.len() {
        return Err(ProblemFault::ListLength);
    }
    if has_no_value(list, sizes) {
        return Err(ProblemFault::NoValue);
    }
    Ok(())
}

// The values as a plan, with 0 for the variables past the list.
fn plan_of(list: &[usize]) -> [u8; 64]
    requires few { length list.now ≤ 64 }
    requires small { (v : ℕ) → v < length list.now → slice_index list.now v < 256 }
    ensures { (v : ℕ) → slice_index result v ≡ slice_index list.now v }
{
    let mut plan = [0; 64];
    // By index: after `iter_mut` a proof knows the length alone.
    for (v, value) in list.iter().enumerate() {
        plan[v] = *value as u8;
    }
    plan
}

// The score of a list of one value for each variable.
fn score_list<V: Scale>(tables: &Tables, list: &[usize]) -> V
    requires long { length list.now ≡ variables (problem_of tables.now) }
    requires valid { Valid (problem_of tables.now) (planned list.now) }
    ensures exact { V.Scale.means result ≡ score V.Scale.rules (problem_of tables.now) (planned list.now) }
    ensures within { V.Scale.within 64 result }
{
    score::<V>(tables, plan_of(list))
}

// The score of the plan that a list of values is.
pub fn score_of<V: Scale>(tables: &Tables, list: &[usize]) -> Result<V, ProblemFault>
    ensures { Answered problem_number (tests V.Scale.rules (unreported (problem_of tables.now)) (Call.score list.now)) (λ x. (V.Scale.means x ≡ score V.Scale.rules (problem_of tables.now) (planned list.now)) × V.Scale.within 64 x) result }
{
    check_list(tables, list)?;
    Ok(score_list::<V>(tables, list))
}
