// The report that the messages on the boards tell.
ghost use Rattle.std.specs.Prelude.{◌≡◌, ℕ, ◌+◌, ◌<◌, ◌≤◌, length, slice_index_or};
ghost use Rattle.theory.specs.Problem.{variables, score};
ghost use Rattle.theory.specs.Graphs.{outside, set_weight};
ghost use Rattle.theory.specs.Joins.{count_below};
ghost use Rattle.theory.specs.Links.{graph};
ghost use Rattle.rules.specs.Figures.{planned, share_of};
ghost use Rattle.keeping.specs.Weights.{weight_of};
ghost use Rattle.spanning.specs.WeightCells.{weight_cells};
ghost use Rattle.messages.specs.Rooted.{Rooted, problem_in, kept_in, hanging_in};
ghost use Rattle.picking.specs.LedTo.{LedTo};
ghost use Rattle.figures.specs.Ceiling.{CeilingOf};
ghost use Rattle.figures.specs.TreeValue.{TreeValueOf};

use crate::report::Report;
use board::{Board, ROW};
use figures::{ceiling, removed_weight, share, tree_value};
use forest::{LINKS, NODES};
use messages::RootedForest;
use picking::picked_plan;
use scale::Scale;
use tables::score;

// The plan that the messages lead to, and the figures.
pub(crate) fn told<V: Scale>(
    forest: &RootedForest,
    values: &Board<V>,
    choices: &Board<u16>,
) -> Report<V>
    requires rooted { Rooted forest.now }
    requires values { 144 ≤ values.now.rows }
    requires choices { 64 ≤ choices.now.rows }
    requires few { (n : ℕ) (d : V) → n < 256 → V.Scale.within 2 (slice_index_or values.now.cells.now (2048 + n) d) }
    ensures long { length result.plan ≡ 64 }
    ensures past { (v : ℕ) → variables (problem_in forest.now) ≤ v → planned result.plan v ≡ 0 }
    ensures chosen { LedTo V.Scale.rules V.Scale.means V.Scale.within (problem_in forest.now) (kept_in forest.now) (hanging_in forest.now) values.now.cells.now choices.now.cells.now (planned result.plan) }
    ensures kept { result.kept ≡ forest.now.kept.now }
    ensures counted { result.kept_count ≡ count_below (kept_in forest.now) 256 }
    ensures tree { TreeValueOf V.Scale.rules V.Scale.means V.Scale.within (problem_in forest.now) (hanging_in forest.now) values.now.cells.now result.tree }
    ensures score { V.Scale.means result.score ≡ score V.Scale.rules (problem_in forest.now) (planned result.plan) }
    ensures removed { V.Scale.means result.removed ≡ set_weight V.Scale.rules (graph (problem_in forest.now)) (weight_of V.Scale.rules V.Scale.means (weight_cells values.now.cells.now)) (outside (kept_in forest.now)) }
    ensures ceiling { CeilingOf V.Scale.rules V.Scale.means V.Scale.within result.tree result.removed result.ceiling }
    ensures share { result.share ≡ share_of (V.Scale.rules.shown (V.Scale.means result.score)).0 (V.Scale.rules.shown (V.Scale.means result.ceiling)).0 }
    ensures few { V.Scale.within 64 result.score × V.Scale.within 512 result.removed }
{
    let plan = picked_plan(forest, values, choices);
    let tree = tree_value(forest.tables, forest.hung, values);
    let score = score::<V>(forest.tables, plan);
    let removed = removed_weight(forest.tables, forest.kept, values.part(NODES, LINKS / ROW));
    let ceiling = ceiling(tree, removed);
    Report {
        plan,
        kept: *forest.kept,
        kept_count: forest.kept.count(),
        tree,
        score,
        removed,
        ceiling,
        share: share(score.show(), ceiling.show()),
    }
}
