// A straight solve: no link is removed.
ghost use Rattle.std.specs.Prelude.{◌≡◌, ℕ, length};
ghost use Rattle.board.specs.SameLent.{SameLent};
ghost use Rattle.theory.specs.Graphs.{Cycle, every};
ghost use Rattle.theory.specs.Joins.{Highest};
ghost use Rattle.theory.specs.Kept.{kept_at};
ghost use Rattle.theory.specs.KeptBy.{straight};
ghost use Rattle.theory.specs.Links.{is_link, graph};
ghost use Rattle.theory.specs.Problem.{Valid, score};
ghost use Rattle.theory.specs.Refusals.{Answered, Untouched};
ghost use Rattle.rules.specs.Guarantees.{Guaranteed};
ghost use Rattle.rules.specs.Report.{Solved};
ghost use Rattle.layout.specs.Numbers.{problem_number};
ghost use Rattle.tables.specs.View.{problem_of};
ghost use Rattle.spanning.specs.HungForest.{HungForest};
ghost use Rattle.calls.specs.State.{Call};
ghost use Rattle.calls.specs.Step.{unreported};
ghost use Rattle.calls.specs.Tests.{tests};
ghost use Rattle.solving.specs.Report.{figures_of, stores_of, Within};

use crate::checking::check_solve;
use crate::clearing::clear_boards;
use crate::filling::filled;
use crate::report::Report;
use board::Board;
use layout::ProblemFault;
use scale::Scale;
use spanning::{Forest, straight_forest};
use tables::Tables;

// The report of a problem whose links form no cycle, by the forest of all of them, with both boards filled.
fn solve_on<V: Scale>(
    tables: &Tables,
    forest: &Forest,
    values: &mut Board<V>,
    choices: &mut Board<u16>,
) -> Report<V>
    requires clear { Cycle (graph (problem_of tables.now)) every → ⊥ }
    requires all { (n : ℕ) → kept_at forest.now.kept.words n ≡ is_link (problem_of tables.now) n }
    requires hung { HungForest (problem_of tables.now) (kept_at forest.now.kept.words) forest.now.hung }
    requires values { length values.old.cells.now ≡ 2304 }
    requires value_rows { values.old.rows ≡ 144 }
    requires choices { length choices.old.cells.now ≡ 1024 }
    requires choice_rows { choices.old.rows ≡ 64 }
    ensures solved { Solved V.Scale.rules (problem_of tables.now) straight (figures_of V.Scale.means result) (stores_of V.Scale.means values.new.cells.now choices.new.cells.now) }
    ensures within { Within V.Scale.within result }
    ensures same { SameLent values.old values.new × SameLent choices.old choices.new }
{
    clear_boards(values, choices);
    filled(tables, forest, values, choices)
}

// The same, with both stores filled.
fn solved<V: Scale>(
    tables: &Tables,
    forest: &Forest,
    values: &mut [V],
    choices: &mut [u16],
) -> Report<V>
    requires clear { Cycle (graph (problem_of tables.now)) every → ⊥ }
    requires all { (n : ℕ) → kept_at forest.now.kept.words n ≡ is_link (problem_of tables.now) n }
    requires hung { HungForest (problem_of tables.now) (kept_at forest.now.kept.words) forest.now.hung }
    requires values { length values.old ≡ 2304 }
    requires choices { length choices.old ≡ 1024 }
    ensures solved { Solved V.Scale.rules (problem_of tables.now) straight (figures_of V.Scale.means result) (stores_of V.Scale.means values.new choices.new) }
    ensures guaranteed { Guaranteed V.Scale.rules (problem_of tables.now) straight (figures_of V.Scale.means result) }
    ensures highest { Highest V.Scale.rules (Valid (problem_of tables.now)) (score V.Scale.rules (problem_of tables.now)) (figures_of V.Scale.means result).tree }
    ensures within { Within V.Scale.within result }
{
    let mut values = Board::over(values);
    let mut choices = Board::over(choices);
    solve_on(tables, forest, &mut values, &mut choices)
}

// Solves a problem whose links form no cycle with all of them, and fills both stores; the report is then in its place. A declined solve changes nothing.
pub fn straight_solve<V: Scale>(
    tables: &Tables,
    values: &mut [V],
    choices: &mut [u16],
    report: &mut Report<V>,
) -> Result<(), ProblemFault>
    ensures answer { Answered problem_number (tests V.Scale.rules (unreported (problem_of tables.now)) (Call.solve straight (length values.old) (length choices.old))) (λ _. Solved V.Scale.rules (problem_of tables.now) straight (figures_of V.Scale.means report.new) (stores_of V.Scale.means values.new choices.new) × Guaranteed V.Scale.rules (problem_of tables.now) straight (figures_of V.Scale.means report.new) × Highest V.Scale.rules (Valid (problem_of tables.now)) (score V.Scale.rules (problem_of tables.now)) (figures_of V.Scale.means report.new).tree × Within V.Scale.within report.new) result }
    ensures report { Untouched result report.old report.new }
    ensures values { Untouched result values.old values.new }
    ensures choices { Untouched result choices.old choices.new }
{
    check_solve::<V>(tables, values.len(), choices.len())?;
    let Some(forest) = straight_forest(tables) else {
        return Err(ProblemFault::HasCycle);
    };
    *report = solved(tables, &forest, values, choices);
    Ok(())
}
