// A bounded solve: the lightest links that clear every cycle are removed.
ghost use Rattle.std.specs.Prelude.{◌≡◌, ◌≤◌, length};
ghost use Rattle.board.specs.SameLent.{SameLent};
ghost use Rattle.theory.specs.KeptBy.{bounded};
ghost use Rattle.theory.specs.Refusals.{Answered, Untouched};
ghost use Rattle.rules.specs.Guarantees.{GuaranteedLightest};
ghost use Rattle.rules.specs.Report.{Solved};
ghost use Rattle.layout.specs.Numbers.{problem_number};
ghost use Rattle.tables.specs.View.{problem_of};
ghost use Rattle.calls.specs.State.{Call};
ghost use Rattle.calls.specs.Step.{unreported};
ghost use Rattle.calls.specs.Tests.{tests};
ghost use Rattle.solving.specs.Report.{figures_of, stores_of, Within};

use crate::checking::check_solve;
use crate::clearing::clear_boards;
use crate::filling::filled;
use crate::report::Report;
use board::Board;
use layout::ProblemFault;
use scale::Measuring;
use spanning::bounded_forest;
use tables::Tables;

// The report of a problem whose lightest links are removed, with both boards filled.
fn solve_on<V: Measuring>(
    tables: &Tables,
    values: &mut Board<V>,
    choices: &mut Board<u16>,
) -> Report<V>
    requires values { length values.old.cells.now ≡ 2304 }
    requires value_rows { values.old.rows ≡ 144 }
    requires choices { length choices.old.cells.now ≡ 1024 }
    requires choice_rows { choices.old.rows ≡ 64 }
    ensures solved { Solved V.Scale.rules (problem_of tables.now) bounded (figures_of V.Scale.means result) (stores_of V.Scale.means values.new.cells.now choices.new.cells.now) }
    ensures within { Within V.Scale.within result }
    ensures same { SameLent values.old values.new × SameLent choices.old choices.new }
{
    clear_boards(values, choices);
    let forest = bounded_forest(tables, values);
    filled(tables, &forest, values, choices)
}

// The same, with both stores filled.
fn solved<V: Measuring>(tables: &Tables, values: &mut [V], choices: &mut [u16]) -> Report<V>
    requires values { length values.old ≡ 2304 }
    requires choices { length choices.old ≡ 1024 }
    ensures solved { Solved V.Scale.rules (problem_of tables.now) bounded (figures_of V.Scale.means result) (stores_of V.Scale.means values.new choices.new) }
    ensures lightest { GuaranteedLightest V.Scale.rules (problem_of tables.now) bounded (figures_of V.Scale.means result) }
    ensures within { Within V.Scale.within result }
{
    let mut values = Board::over(values);
    let mut choices = Board::over(choices);
    solve_on(tables, &mut values, &mut choices)
}

// Solves a problem with its lightest links removed, and fills both stores; the report is then in its place. A declined solve changes nothing.
pub fn bounded_solve<V: Measuring>(
    tables: &Tables,
    values: &mut [V],
    choices: &mut [u16],
    report: &mut Report<V>,
) -> Result<(), ProblemFault>
    ensures answer { Answered problem_number (tests V.Scale.rules (unreported (problem_of tables.now)) (Call.solve bounded (length values.old) (length choices.old))) (λ _. Solved V.Scale.rules (problem_of tables.now) bounded (figures_of V.Scale.means report.new) (stores_of V.Scale.means values.new choices.new) × GuaranteedLightest V.Scale.rules (problem_of tables.now) bounded (figures_of V.Scale.means report.new) × Within V.Scale.within report.new) result }
    ensures report { Untouched result report.old report.new }
    ensures values { Untouched result values.old values.new }
    ensures choices { Untouched result choices.old choices.new }
{
    check_solve::<V>(tables, values.len(), choices.len())?;
    *report = solved(tables, values, choices);
    Ok(())
}
