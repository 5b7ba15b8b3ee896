// The plan that the messages lead to.
#![tactic(auto)]

ghost use Rattle.std.specs.Prelude.{◌≡◌, ℕ, ◌≤◌, length};
ghost use Rattle.theory.specs.Problem.{variables};
ghost use Rattle.rules.specs.Figures.{planned};
ghost use Rattle.messages.specs.Rooted.{Rooted, problem_in, kept_in, hanging_in};
ghost use Rattle.picking.specs.LedTo.{LedTo};

use crate::along::plan_along;
use board::Board;
use messages::RootedForest;
use scale::Scale;

mod along;
mod below;
mod draft;
mod roots;

// The plan by the messages on the boards, from the roots down: a root has the lowest value whose message is highest, and the variables
// below a function have what the function takes at its parent's value.
pub fn picked_plan<V: Scale>(
    forest: &RootedForest,
    values: &Board<V>,
    choices: &Board<u16>,
) -> [u8; 64]
    requires values { 128 ≤ values.now.rows }
    requires choices { 64 ≤ choices.now.rows }
    requires rooted { Rooted forest.now }
    ensures long { length result ≡ 64 }
    ensures past { (v : ℕ) → variables (problem_in forest.now) ≤ v → planned result v ≡ 0 }
    ensures chosen { LedTo V.Scale.rules V.Scale.means V.Scale.within (problem_in forest.now) (kept_in forest.now) (hanging_in forest.now) values.now.cells.now choices.now.cells.now (planned result) }
{
    plan_along(forest, values, choices)
}
