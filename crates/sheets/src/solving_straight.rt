// A file whose problem is solved with no link removed.
ghost use Rattle.std.specs.Prelude.{◌≡◌, length};
ghost use Rattle.theory.specs.KeptBy.{straight};
ghost use Rattle.theory.specs.Refusals.{Answered};
ghost use Rattle.file.specs.Numbers.{refusal};
ghost use Rattle.file.specs.Tests.{at_place};
ghost use Rattle.solving.specs.Report.{figures_of, stores_of};
ghost use Rattle.engine.specs.View.{state_of};
ghost use Rattle.sheets.specs.Sheets.{solve_tests, SheetOf, SolvedAs};
ghost use Rattle.sheets.specs.Shows.{sheet_tests, Shows};

use crate::opening::opened;
use crate::placing::placed;
use crate::printing::Sheet;
use crate::telling::told;
use engine::Problem;
use file::FileFault;
use scale::Scale;
use solving::Report;

// The report of a problem.
fn solve<V: Scale>(
    problem: &mut Problem<V>,
    values: &mut [V],
    choices: &mut [u16],
    report: &mut Report<V>,
) -> Result<(), FileFault>
    requires values { length values.old ≡ 2304 }
    requires choices { length choices.old ≡ 1024 }
    ensures { Answered refusal (at_place 0 (solve_tests straight (state_of V.Scale.means problem.old).problem)) (λ _. SolvedAs V.Scale.rules straight (state_of V.Scale.means problem.old).problem (state_of V.Scale.means problem.new).problem (figures_of V.Scale.means report.new) (stores_of V.Scale.means values.new choices.new)) result }
{
    placed(problem.straight_solve(values, choices, report))
}

// The sheet of a problem.
fn problem_sheet<V: Scale>(
    problem: &mut Problem<V>,
    values: &mut [V],
    choices: &mut [u16],
) -> Result<Sheet, FileFault>
    requires values { length values.old ≡ 2304 }
    requires choices { length choices.old ≡ 1024 }
    ensures { Answered refusal (at_place 0 (solve_tests straight (state_of V.Scale.means problem.old).problem)) (SheetOf V.Scale.rules (state_of V.Scale.means problem.old).problem straight) result }
{
    let mut report = Report::blank();
    solve(problem, values, choices, &mut report)?;
    Ok(told(problem, &report))
}

// The sheet of a file. Both stores are filled on the way.
pub(crate) fn straight_sheet<V: Scale>(
    bytes: &[u8],
    values: &mut [V],
    choices: &mut [u16],
) -> Result<Sheet, FileFault>
    requires values { length values.old ≡ 2304 }
    requires choices { length choices.old ≡ 1024 }
    ensures { Answered refusal (sheet_tests V.Scale.rules straight bytes.now) (Shows V.Scale.rules straight bytes.now) result }
{
    let mut problem = opened(bytes)?;
    problem_sheet(&mut problem, values, choices)
}
