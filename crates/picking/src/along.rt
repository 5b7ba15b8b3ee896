// The plan along the hung order.
ghost use Rattle.std.specs.Prelude.{◌≡◌, ℕ, ◌≤◌, length};
ghost use Rattle.theory.specs.Problem.{variables};
ghost use Rattle.rules.specs.Figures.{planned};
ghost use Rattle.hanging.specs.Forest.{Known};
ghost use Rattle.messages.specs.Rooted.{Rooted, problem_in, kept_in, hanging_in};
ghost use Rattle.picking.specs.LedTo.{LedTo};
ghost use Rattle.picking.specs.Steps.{Given};

use crate::below::pick_below;
use crate::draft::Draft;
use crate::roots::pick_root;
use board::Board;
use hanging::Node;
use messages::RootedForest;
use scale::Scale;

// Gives the values that are known at a node: that of a root, or those of the variables below a function.
fn pick_at<V: Scale>(
    forest: &RootedForest,
    values: &Board<V>,
    choices: &Board<u16>,
    draft: &mut Draft,
    node: Node,
)
    requires known { Known (problem_in forest.now) node }
    requires rooted { Rooted forest.now }
    requires values { 128 ≤ values.now.rows }
    requires choices { 64 ≤ choices.now.rows }
    ensures { Given V.Scale.rules V.Scale.means (problem_in forest.now) (hanging_in forest.now) values.now.cells.now choices.now.cells.now node draft.old.values draft.new.values }
{
    match node {
        Node::Variable(v) => pick_root(forest, values, draft, v),
        Node::Function(f) => pick_below(forest, choices, draft, f),
    }
}

// Goes along the order, in which each node stands after the one that it hangs from.
pub(crate) fn plan_along<V: Scale>(
    forest: &RootedForest,
    values: &Board<V>,
    choices: &Board<u16>,
) -> [u8; 64]
    requires values { 128 ≤ values.now.rows }
    requires choices { 64 ≤ choices.now.rows }
    requires rooted { Rooted forest.now }
    ensures long { length result ≡ 64 }
    ensures past { (v : ℕ) → variables (problem_in forest.now) ≤ v → planned result v ≡ 0 }
    ensures chosen { LedTo V.Scale.rules V.Scale.means V.Scale.within (problem_in forest.now) (kept_in forest.now) (hanging_in forest.now) values.now.cells.now choices.now.cells.now (planned result) }
{
    let mut draft = Draft::empty();
    for node in forest.hung.order() {
        pick_at(forest, values, choices, &mut draft, *node);
    }
    draft.plan()
}
