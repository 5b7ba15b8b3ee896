// The tests of a solve that come before any work.
ghost use Rattle.std.specs.Prelude.{◌≡◌, ◌≤◌, length};
ghost use Rattle.theory.specs.Problem.{variables};
ghost use Rattle.theory.specs.KeptBy.{bounded};
ghost use Rattle.theory.specs.Refusals.{Answered};
ghost use Rattle.layout.specs.Numbers.{problem_number};
ghost use Rattle.tables.specs.View.{problem_of};
ghost use Rattle.calls.specs.State.{Call};
ghost use Rattle.calls.specs.Step.{unreported};
ghost use Rattle.calls.specs.Tests.{tests};

use board::ROW;
use forest::{LINKS, NODES};
use layout::{MOST_FUNCTIONS, ProblemFault};
use scale::Scale;
use tables::Tables;

// How many cells the value store has: a row for each node, and a cell for each link.
pub const VALUE_CELLS: usize = ROW * NODES + LINKS;

// How many cells the choice store has: a row for each function.
pub const CHOICE_CELLS: usize = ROW * MOST_FUNCTIONS;

// Declines stores of other lengths, and a problem without variables.
pub(crate) fn check_solve<V: Scale>(
    tables: &Tables,
    values: usize,
    choices: usize,
) -> Result<(), ProblemFault>
    ensures { Answered problem_number (tests V.Scale.rules (unreported (problem_of tables.now)) (Call.solve bounded values choices)) (λ _. (values ≡ 2304) × (choices ≡ 1024) × (1 ≤ variables (problem_of tables.now))) result }
{
    if values != VALUE_CELLS || choices != CHOICE_CELLS {
        return Err(ProblemFault::StoreLength);
    }
    if tables.layout.domains().is_empty() {
        return Err(ProblemFault::NoVariables);
    }
    Ok(())
}
