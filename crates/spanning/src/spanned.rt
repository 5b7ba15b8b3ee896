// The kept links of a problem, and how its nodes hang by them.
ghost use Rattle.std.specs.Prelude.{◌≡◌};
ghost use Rattle.theory.specs.Graphs.{Cycle};
ghost use Rattle.theory.specs.Kept.{kept_at};
ghost use Rattle.theory.specs.Links.{graph};
ghost use Rattle.tables.specs.View.{problem_of};
ghost use Rattle.hanging.specs.Forest.{EachKept};
ghost use Rattle.spanning.specs.HungForest.{HungForest};

use forest::Links;
use hanging::{Hung, hang};
use tables::Tables;

#[derive(Clone, Copy)]
pub struct Forest {
    pub kept: Links,
    pub hung: Hung,
}

// Some links that form no cycle, with all nodes hung by them.
pub(crate) fn hung_by(tables: &Tables, links: Links) -> Forest
    requires each { EachKept (problem_of tables.now) (kept_at links.words) }
    requires clear { Cycle (graph (problem_of tables.now)) (kept_at links.words) → ⊥ }
    ensures kept { result.kept ≡ links }
    ensures hung { HungForest (problem_of tables.now) (kept_at result.kept.words) result.hung }
{
    Forest {
        kept: links,
        hung: hang(&tables.layout, &links),
    }
}
