// The weight of a link.
ghost use Rattle.std.specs.Prelude.{◌<◌};
ghost use Rattle.theory.specs.Cut.{Weighs};
ghost use Rattle.theory.specs.Problem.{functions, arity};
ghost use Rattle.theory.specs.Refusals.{Answered, place_tests};
ghost use Rattle.layout.specs.Numbers.{problem_number};
ghost use Rattle.tables.specs.View.{problem_of};
ghost use Rattle.calls.specs.State.{Call};
ghost use Rattle.calls.specs.Step.{unreported};
ghost use Rattle.calls.specs.Tests.{tests};

use layout::ProblemFault;
use scale::Measuring;
use tables::Tables;
use weights::weight;

// Declines a place that is not there.
fn check_place(tables: &Tables, function: usize, place: usize) -> Result<(), ProblemFault>
    ensures { Answered problem_number (place_tests (problem_of tables.now) function place) (λ _. (function < functions (problem_of tables.now)) × (place < arity (problem_of tables.now) function)) result }
{
    if function >= tables.layout.functions() {
        return Err(ProblemFault::NoFunction);
    }
    if place >= tables.layout.scope(function).len() {
        return Err(ProblemFault::NoPlace);
    }
    Ok(())
}

// The weight of the link at a place of a function.
pub fn weigh<V: Measuring>(
    tables: &Tables,
    function: usize,
    place: usize,
) -> Result<V, ProblemFault>
    ensures { Answered problem_number (tests V.Scale.rules (unreported (problem_of tables.now)) (Call.weight function place)) (λ w. Weighs V.Scale.rules (problem_of tables.now) function place (V.Scale.means w) × V.Scale.within 2 w) result }
{
    check_place(tables, function, place)?;
    Ok(weight::<V>(tables, function, place))
}
