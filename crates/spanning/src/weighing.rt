// The weights of all links, on a board.
ghost use Rattle.std.specs.Prelude.{◌≡◌, ℕ, ◌+◌, ◌/◌, ◌%◌, ◌<◌, ◌≤◌, true, false, slice_index_or};
ghost use Rattle.board.specs.SameLent.{SameLent};
ghost use Rattle.theory.specs.Cut.{Weighs, Weights};
ghost use Rattle.theory.specs.Links.{is_link};
ghost use Rattle.tables.specs.View.{problem_of};
ghost use Rattle.keeping.specs.Weights.{weight_of};
ghost use Rattle.spanning.specs.WeightCells.{weight_cells, OthersSame};

use board::{Board, ROW};
use forest::{LINKS, NODES, is_link};
use layout::MOST_PLACES;
use scale::Measuring;
use tables::Tables;
use weights::weight;

// The first row of the weights on a board: each node has a row before them.
pub(crate) const FIRST: usize = NODES;

// How many rows the weights have.
pub(crate) const ROWS: usize = LINKS / ROW;

// The weight of a link; neutral where there is no such link.
fn weigh_link<V: Measuring>(tables: &Tables, link: usize) -> V
    ensures weighs { is_link (problem_of tables.now) link ≡ true → Weighs V.Scale.rules (problem_of tables.now) (link / 4) (link % 4) (V.Scale.means result) }
    ensures unweighed { is_link (problem_of tables.now) link ≡ false → V.Scale.means result ≡ V.Scale.rules.neutral }
    ensures within { V.Scale.within 2 result }
{
    if is_link(&tables.layout, link) {
        weight(tables, link / MOST_PLACES, link % MOST_PLACES)
    } else {
        V::neutral()
    }
}

// Writes the weight of each link into its cell.
pub(crate) fn weigh_links<V: Measuring>(tables: &Tables, values: &mut Board<V>)
    requires { 144 ≤ values.old.rows }
    ensures weights { Weights V.Scale.rules (problem_of tables.now) (weight_of V.Scale.rules V.Scale.means (weight_cells values.new.cells.now)) }
    ensures unweighed { (n : ℕ) → is_link (problem_of tables.now) n ≡ false → weight_of V.Scale.rules V.Scale.means (weight_cells values.new.cells.now) n ≡ V.Scale.rules.neutral }
    ensures within { (n : ℕ) (d : V) → n < 256 → V.Scale.within 2 (slice_index_or values.new.cells.now (2048 + n) d) }
    ensures others { OthersSame values.old.cells.now values.new.cells.now }
    ensures same { SameLent values.old values.new }
{
    // By number: the number is the link, and tells its cell.
    for link in 0..LINKS {
        values.put(FIRST + link / ROW, link % ROW, weigh_link(tables, link));
    }
}
