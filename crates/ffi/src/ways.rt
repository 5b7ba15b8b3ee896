// The two ways to solve a problem.
ghost use Rattle.std.specs.Prelude.{length, IfOk};
ghost use Rattle.theory.specs.KeptBy.{Rule, straight, bounded};
ghost use Rattle.theory.specs.Refusals.{Untouched};
ghost use Rattle.calls.specs.Promise.{Carries};
ghost use Rattle.calls.specs.State.{Call, Answer};
ghost use Rattle.solving.specs.Report.{figures_of, stores_of};
ghost use Rattle.engine.specs.View.{state_of, answer_by};
ghost use Rattle.sheets.specs.Sheets.{GuaranteedBy};

use engine::Problem;
use layout::ProblemFault;
use scale::{Measuring, Scale};
use solving::Report;

// A way to solve the problems of a scale.
pub(crate) trait Way<V: Scale> {
    // The rule that the links are kept by.
    ghost rule: { Rule };

    // Makes the report, and fills both stores.
    fn solve(
        problem: &mut Problem<V>,
        values: &mut [V],
        choices: &mut [u16],
        report: &mut Report<V>,
    ) -> Result<(), ProblemFault>
        ensures carries { Carries V.Scale.rules (state_of V.Scale.means problem.old) (Call.solve rule (length values.old) (length choices.old)) (answer_by (λ _. Answer.solved (figures_of V.Scale.means report.new) (stores_of V.Scale.means values.new choices.new)) result) (state_of V.Scale.means problem.new) }
        ensures guaranteed { IfOk result (λ _. GuaranteedBy V.Scale.rules (state_of V.Scale.means problem.new).problem rule (figures_of V.Scale.means report.new)) }
        ensures choices { Untouched result choices.old choices.new };
}

// No link is removed.
pub(crate) struct Straight;

// The lightest links are removed.
pub(crate) struct Bounded;

impl<V: Scale> Way<V> for Straight {
    ghost rule = { straight };

    fn solve(
        problem: &mut Problem<V>,
        values: &mut [V],
        choices: &mut [u16],
        report: &mut Report<V>,
    ) -> Result<(), ProblemFault> {
        problem.straight_solve(values, choices, report)
    }
}

impl<V: Measuring> Way<V> for Bounded {
    ghost rule = { bounded };

    fn solve(
        problem: &mut Problem<V>,
        values: &mut [V],
        choices: &mut [u16],
        report: &mut Report<V>,
    ) -> Result<(), ProblemFault> {
        problem.bounded_solve(values, choices, report)
    }
}
