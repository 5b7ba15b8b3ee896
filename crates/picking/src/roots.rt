// The value of a root.
ghost use Rattle.std.specs.Prelude.{◌<◌, ◌≤◌, length};
ghost use Rattle.theory.specs.Problem.{variables};
ghost use Rattle.messages.specs.Rooted.{problem_in, hanging_in};
ghost use Rattle.picking.specs.Steps.{LowestHighest, LowestBest, RootGiven};

use crate::draft::Draft;
use board::Board;
use messages::RootedForest;
use scale::Scale;

// The lowest value at which a message is highest.
fn lowest_highest<V: Scale>(message: &[V]) -> usize
    requires { 1 ≤ length message.now }
    ensures { LowestHighest V.Scale.rules V.Scale.means message.now result }
{
    let mut best = 0;
    for (value, entry) in message.iter().enumerate() {
        if !message[best].at_least(*entry) {
            best = value;
        }
    }
    best
}

// The lowest of the first values of a variable whose message is highest.
fn lowest_best<V: Scale>(values: &Board<V>, variable: usize, size: usize) -> usize
    requires row { variable < values.now.rows }
    requires some { 1 ≤ size }
    requires small { size ≤ 16 }
    ensures { LowestBest V.Scale.rules V.Scale.means values.now.cells.now variable size result }
{
    let message = values.part(variable, 1);
    lowest_highest(&message[..size])
}

// Gives a root its value; a variable that hangs from a function gets none here.
pub(crate) fn pick_root<V: Scale>(
    forest: &RootedForest,
    values: &Board<V>,
    draft: &mut Draft,
    variable: usize,
)
    requires known { variable < variables (problem_in forest.now) }
    requires rows { 128 ≤ values.now.rows }
    ensures { RootGiven V.Scale.rules V.Scale.means (problem_in forest.now) (hanging_in forest.now) values.now.cells.now variable draft.old.values draft.new.values }
{
    if forest.hung.variable(variable).parent.is_none() {
        let size = forest.tables.layout.domains()[variable] as usize;
        draft.give(variable, lowest_best(values, variable, size));
    }
}
