// The figures of a report, as a sheet shows them.
ghost use Rattle.solving.specs.Report.{figures_of};
ghost use Rattle.engine.specs.View.{state_of};
ghost use Rattle.sheets.specs.Sheets.{Tells};

use crate::printing::Sheet;
use engine::Problem;
use scale::Scale;
use solving::Report;

pub fn told<V: Scale>(problem: &Problem<V>, report: &Report<V>) -> Sheet
    ensures { Tells V.Scale.rules (state_of V.Scale.means problem.now).problem (figures_of V.Scale.means report.now) result }
{
    Sheet {
        scale: V::code(),
        variables: problem.variables(),
        plan: report.plan,
        kept: report.kept_count,
        tree: report.tree.show(),
        score: report.score.show(),
        removed: report.removed.show(),
        ceiling: report.ceiling.show(),
        share: report.share,
    }
}
