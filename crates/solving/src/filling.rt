// From the hung forest to the report, with both boards filled.
ghost use Rattle.std.specs.Prelude.{◌≡◌, ◌≤◌};
ghost use Rattle.board.specs.SameLent.{SameLent};
ghost use Rattle.theory.specs.Kept.{kept_at};
ghost use Rattle.theory.specs.KeptBy.{Rule, KeptBy};
ghost use Rattle.rules.specs.Report.{Solved};
ghost use Rattle.tables.specs.View.{problem_of};
ghost use Rattle.keeping.specs.Weights.{weight_of};
ghost use Rattle.spanning.specs.HungForest.{HungForest};
ghost use Rattle.spanning.specs.WeightCells.{weight_cells};
ghost use Rattle.solving.specs.Blank.{Blank};
ghost use Rattle.solving.specs.Report.{figures_of, stores_of, Within};

use crate::report::Report;
use crate::telling::told;
use board::Board;
use messages::{RootedForest, send_messages};
use scale::Scale;
use spanning::Forest;
use tables::Tables;

// Sends the messages up the forest, and answers the report that they tell.
pub(crate) fn filled<V: Scale>(
    tables: &Tables,
    forest: &Forest,
    values: &mut Board<V>,
    choices: &mut Board<u16>,
) -> Report<V>
    requires hung { HungForest (problem_of tables.now) (kept_at forest.now.kept.words) forest.now.hung }
    requires values { 144 ≤ values.old.rows }
    requires choices { 64 ≤ choices.old.rows }
    requires blank { Blank V.Scale.rules V.Scale.means V.Scale.within values.old.cells.now choices.old.cells.now }
    ensures solved { (rule : Rule) → KeptBy V.Scale.rules (problem_of tables.now) (weight_of V.Scale.rules V.Scale.means (weight_cells values.old.cells.now)) (kept_at forest.now.kept.words) rule → Solved V.Scale.rules (problem_of tables.now) rule (figures_of V.Scale.means result) (stores_of V.Scale.means values.new.cells.now choices.new.cells.now) }
    ensures within { Within V.Scale.within result }
    ensures same { SameLent values.old values.new × SameLent choices.old choices.new }
{
    let rooted = RootedForest {
        tables,
        kept: &forest.kept,
        hung: &forest.hung,
    };
    send_messages(&rooted, values, choices);
    told(&rooted, values, choices)
}
