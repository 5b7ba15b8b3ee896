// The links of a problem that are kept by their weights.
ghost use Rattle.std.specs.Prelude.{◌≡◌, ℕ, ◌+◌, ◌<◌, ◌≤◌, false, slice_index_or};
ghost use Rattle.board.specs.SameLent.{SameLent};
ghost use Rattle.theory.specs.Cut.{Weights};
ghost use Rattle.theory.specs.Kept.{kept_at};
ghost use Rattle.theory.specs.Bounded.{Bounded};
ghost use Rattle.theory.specs.Links.{is_link};
ghost use Rattle.tables.specs.View.{problem_of};
ghost use Rattle.keeping.specs.Weights.{weight_of};
ghost use Rattle.spanning.specs.HungForest.{HungForest};
ghost use Rattle.spanning.specs.LightestRemoved.{LightestRemoved};
ghost use Rattle.spanning.specs.WeightCells.{weight_cells, OthersSame};

use crate::spanned::{Forest, hung_by};
use crate::weighing::{FIRST, ROWS, weigh_links};
use board::Board;
use keeping::keep_by_weight;
use scale::Measuring;
use tables::Tables;

// The forest of the links that are kept by the weights on the board.
fn bounded_links<V: Measuring>(tables: &Tables, values: &Board<V>) -> Forest
    requires rows { 144 ≤ values.now.rows }
    requires weights { Weights V.Scale.rules (problem_of tables.now) (weight_of V.Scale.rules V.Scale.means (weight_cells values.now.cells.now)) }
    requires unweighed { (n : ℕ) → is_link (problem_of tables.now) n ≡ false → weight_of V.Scale.rules V.Scale.means (weight_cells values.now.cells.now) n ≡ V.Scale.rules.neutral }
    ensures rule { Bounded V.Scale.rules (problem_of tables.now) (weight_of V.Scale.rules V.Scale.means (weight_cells values.now.cells.now)) (kept_at result.kept.words) }
    ensures hung { HungForest (problem_of tables.now) (kept_at result.kept.words) result.hung }
    ensures lightest { LightestRemoved V.Scale.rules (problem_of tables.now) (weight_of V.Scale.rules V.Scale.means (weight_cells values.now.cells.now)) (kept_at result.kept.words) }
{
    hung_by(
        tables,
        keep_by_weight(&tables.layout, values.part(FIRST, ROWS)),
    )
}

// Weighs every link of a problem, keeps links from the heaviest, each that closes no cycle with those kept, and hangs every node by them.
// The weights stay on the board, in its rows 128 to 143.
pub fn bounded_forest<V: Measuring>(tables: &Tables, values: &mut Board<V>) -> Forest
    requires { 144 ≤ values.old.rows }
    ensures rule { Bounded V.Scale.rules (problem_of tables.now) (weight_of V.Scale.rules V.Scale.means (weight_cells values.new.cells.now)) (kept_at result.kept.words) }
    ensures hung { HungForest (problem_of tables.now) (kept_at result.kept.words) result.hung }
    ensures lightest { LightestRemoved V.Scale.rules (problem_of tables.now) (weight_of V.Scale.rules V.Scale.means (weight_cells values.new.cells.now)) (kept_at result.kept.words) }
    ensures within { (n : ℕ) (d : V) → n < 256 → V.Scale.within 2 (slice_index_or values.new.cells.now (2048 + n) d) }
    ensures others { OthersSame values.old.cells.now values.new.cells.now }
    ensures same { SameLent values.old values.new }
{
    weigh_links(tables, values);
    bounded_links(tables, values)
}
