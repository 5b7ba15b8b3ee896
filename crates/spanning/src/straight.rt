// All links of a problem, where they form no cycle.
ghost use Rattle.std.specs.Prelude.{◌≡◌, ℕ, Decides, MatchOption};
ghost use Rattle.theory.specs.Graphs.{Cycle, every};
ghost use Rattle.theory.specs.Kept.{kept_at};
ghost use Rattle.theory.specs.Links.{is_link, graph};
ghost use Rattle.tables.specs.View.{problem_of};
ghost use Rattle.forest.specs.FactorGraph.{layout_graph};
ghost use Rattle.spanning.specs.HungForest.{HungForest};

use crate::spanned::{Forest, hung_by};
use forest::{LINKS, Links, has_cycle, is_link};
use layout::Layout;
use tables::Tables;

// All links of a layout.
fn all_links(layout: &Layout) -> Links
    ensures { (n : ℕ) → kept_at result.words n ≡ (layout_graph layout.now).present n }
{
    let mut links = Links::none();
    // By number: the number is the link.
    for link in 0..LINKS {
        if is_link(layout, link) {
            links.keep(link);
        }
    }
    links
}

// Whether the links of the problem form a cycle.
fn cyclic(tables: &Tables) -> bool
    ensures { Decides result (Cycle (graph (problem_of tables.now)) every) }
{
    has_cycle(&tables.layout)
}

// The forest of all links.
fn all_hung(tables: &Tables) -> Forest
    requires { Cycle (graph (problem_of tables.now)) every → ⊥ }
    ensures kept { (n : ℕ) → kept_at result.kept.words n ≡ is_link (problem_of tables.now) n }
    ensures hung { HungForest (problem_of tables.now) (kept_at result.kept.words) result.hung }
{
    hung_by(tables, all_links(&tables.layout))
}

// Keeps all links and hangs every node by them; none where the links form a cycle.
pub fn straight_forest(tables: &Tables) -> Option<Forest>
    ensures { MatchOption result (Cycle (graph (problem_of tables.now)) every) (λ f. (Cycle (graph (problem_of tables.now)) every → ⊥) × ((n : ℕ) → kept_at f.kept.words n ≡ is_link (problem_of tables.now) n) × HungForest (problem_of tables.now) (kept_at f.kept.words) f.hung) }
{
    if cyclic(tables) {
        None
    } else {
        Some(all_hung(tables))
    }
}
