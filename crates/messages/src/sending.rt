// Messages from the leaves of the hung forest to its roots.
ghost use Rattle.std.specs.Prelude.{ℕ, ◌<◌, ◌≤◌};
ghost use Rattle.board.specs.SameLent.{SameLent};
ghost use Rattle.hanging.specs.Forest.{Known};
ghost use Rattle.messages.specs.Holding.{Holds};
ghost use Rattle.messages.specs.Rooted.{Rooted, Parents, problem_in, kept_in, hanging_in};
ghost use Rattle.messages.specs.Sending.{SendsNode, SendsAll, node_cells, node_choices, message_cells, any_choice_cells};
ghost use Rattle.messages.specs.Upward.{OnlyAt};

use crate::functions::send_function;
use crate::rooted::RootedForest;
use crate::variables::{parents, send_variable};
use board::Board;
use hanging::Node;
use layout::{MOST_FUNCTIONS, MOST_IN_TABLE};
use scale::Scale;

fn send_node<V: Scale>(
    forest: &RootedForest,
    node: Node,
    parents: &[usize; MOST_FUNCTIONS],
    room: &mut [u32; MOST_IN_TABLE],
    values: &mut Board<V>,
    choices: &mut Board<u16>,
)
    requires known { Known (problem_in forest.now) node }
    requires rooted { Rooted forest.now }
    requires parents { Parents forest.now parents.now }
    requires values { 128 ≤ values.old.rows }
    requires choices { 64 ≤ choices.old.rows }
    requires neutral { (k : ℕ) → k < 1024 → node_cells (problem_in forest.now) (hanging_in forest.now) node k → Holds V.Scale.means V.Scale.within values.old.cells.now k V.Scale.rules.neutral 0 }
    ensures sent { SendsNode V.Scale.rules V.Scale.means V.Scale.within (problem_in forest.now) (kept_in forest.now) (hanging_in forest.now) node values.old.cells.now values.new.cells.now choices.new.cells.now }
    ensures values { OnlyAt (node_cells (problem_in forest.now) (hanging_in forest.now) node) values.old.cells.now values.new.cells.now }
    ensures choices { OnlyAt (node_choices (problem_in forest.now) (hanging_in forest.now) node) choices.old.cells.now choices.new.cells.now }
    ensures same { SameLent values.old values.new × SameLent choices.old choices.new }
{
    match node {
        Node::Variable(v) => send_variable(forest, v, parents, values),
        Node::Function(f) => send_function(forest, f, room, values, choices),
    }
}

// Goes backward along the order, in which each node stands after the one that it hangs from.
fn send_all<V: Scale>(forest: &RootedForest, values: &mut Board<V>, choices: &mut Board<u16>)
    requires rooted { Rooted forest.now }
    requires values { 128 ≤ values.old.rows }
    requires choices { 64 ≤ choices.old.rows }
    requires neutral { (k : ℕ) → k < 1024 → Holds V.Scale.means V.Scale.within values.old.cells.now k V.Scale.rules.neutral 0 }
    ensures sent { SendsAll V.Scale.rules V.Scale.means V.Scale.within (problem_in forest.now) (kept_in forest.now) (hanging_in forest.now) values.new.cells.now choices.new.cells.now }
    ensures values { OnlyAt (message_cells (problem_in forest.now) (hanging_in forest.now)) values.old.cells.now values.new.cells.now }
    ensures choices { OnlyAt (any_choice_cells (problem_in forest.now) (hanging_in forest.now)) choices.old.cells.now choices.new.cells.now }
    ensures same { SameLent values.old values.new × SameLent choices.old choices.new }
{
    let parents = parents(forest);
    let mut room = [0; MOST_IN_TABLE];
    for node in forest.hung.order().iter().rev() {
        send_node(forest, *node, &parents, &mut room, values, choices);
    }
}

// Writes the messages of all nodes of the forest, over neutral cells, and the choices of the functions.
pub fn send_messages<V: Scale>(
    forest: &RootedForest,
    values: &mut Board<V>,
    choices: &mut Board<u16>,
)
    requires rooted { Rooted forest.now }
    requires values { 128 ≤ values.old.rows }
    requires choices { 64 ≤ choices.old.rows }
    requires neutral { (k : ℕ) → k < 1024 → Holds V.Scale.means V.Scale.within values.old.cells.now k V.Scale.rules.neutral 0 }
    ensures sent { SendsAll V.Scale.rules V.Scale.means V.Scale.within (problem_in forest.now) (kept_in forest.now) (hanging_in forest.now) values.new.cells.now choices.new.cells.now }
    ensures values { OnlyAt (message_cells (problem_in forest.now) (hanging_in forest.now)) values.old.cells.now values.new.cells.now }
    ensures choices { OnlyAt (any_choice_cells (problem_in forest.now) (hanging_in forest.now)) choices.old.cells.now choices.new.cells.now }
    ensures same { SameLent values.old values.new × SameLent choices.old choices.new }
{
    send_all(forest, values, choices);
}
