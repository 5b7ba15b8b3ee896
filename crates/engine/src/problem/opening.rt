// A problem to begin with.
ghost use Rattle.std.specs.Prelude.{◌≡◌};
ghost use Rattle.theory.specs.Problem.{no_problem};
ghost use Rattle.calls.specs.Step.{Begins, unreported};
ghost use Rattle.engine.specs.View.{state_of};

use crate::problem::Problem;
use scale::Scale;
use tables::Tables;

impl<V: Scale> Problem<V> {
    fn empty() -> Problem<V>
        ensures { state_of V.Scale.means result ≡ unreported no_problem }
    {
        Problem {
            tables: Tables::empty(),
            standing: None,
        }
    }

    fn start() -> Problem<V>
        ensures state { state_of V.Scale.means result ≡ unreported no_problem }
        ensures begins { Begins V.Scale.rules (state_of V.Scale.means result) }
    {
        Problem::empty()
    }

    // A problem without variables and functions, and without a report.
    pub fn open() -> Problem<V>
        ensures state { state_of V.Scale.means result ≡ unreported no_problem }
        ensures begins { Begins V.Scale.rules (state_of V.Scale.means result) }
    {
        Problem::start()
    }
}
