// The message of a variable: what the functions below it say, joined in the order of their numbers.
ghost use Rattle.std.specs.Prelude.{◌≡◌, ℕ, ◌<◌, ◌≤◌, slice_index_or};
ghost use Rattle.board.specs.SameLent.{SameLent};
ghost use Rattle.theory.specs.Forest.{above};
ghost use Rattle.theory.specs.Problem.{variables, functions};
ghost use Rattle.joining.specs.Standing.{JoinOf};
ghost use Rattle.messages.specs.Holding.{Holds};
ghost use Rattle.messages.specs.Rooted.{Rooted, Parents, problem_in, kept_in, hanging_in};
ghost use Rattle.messages.specs.Sending.{SendsVariable, variable_cells};
ghost use Rattle.messages.specs.Sent.{variable_cell, function_cell};
ghost use Rattle.messages.specs.Upward.{OnlyAt};

use crate::rooted::RootedForest;
use board::Board;
use layout::{MOST_FUNCTIONS, MOST_VARIABLES};
use scale::Scale;

// Joins the message of a function to that of the variable that it hangs from, value by value.
fn join_row<V: Scale>(values: &mut Board<V>, variable: usize, function: usize, size: usize)
    requires variable { variable < 64 }
    requires function { function < 64 }
    requires size { size ≤ 16 }
    requires values { 128 ≤ values.old.rows }
    ensures joined { (x : ℕ) (d : V) → x < size → JoinOf V.Scale.rules V.Scale.means V.Scale.within (slice_index_or values.old.cells.now (variable_cell variable x) d) (slice_index_or values.old.cells.now (function_cell function x) d) (slice_index_or values.new.cells.now (variable_cell variable x) d) }
    ensures values { OnlyAt (λ k. (x : ℕ) × (x < size) × (k ≡ variable_cell variable x)) values.old.cells.now values.new.cells.now }
    ensures same { SameLent values.old values.new }
{
    // By value: one row of the board is read and another written.
    for x in 0..size {
        let sum = values
            .get(variable, x)
            .join(values.get(MOST_VARIABLES + function, x));
        values.put(variable, x, sum);
    }
}

// The variable that a function hangs from.
fn parent_of(forest: &RootedForest, function: usize) -> usize
    requires function { function < functions (problem_in forest.now) }
    requires rooted { Rooted forest.now }
    ensures { result ≡ above (problem_in forest.now) (hanging_in forest.now) function }
{
    let scope = forest.tables.layout.scope(function);
    scope[forest.hung.place_of(function)] as usize
}

// The same of each function. Each variable looks at all of them.
pub(crate) fn parents(forest: &RootedForest) -> [usize; MOST_FUNCTIONS]
    requires rooted { Rooted forest.now }
    ensures { Parents forest.now result }
{
    let mut parents = [0; MOST_FUNCTIONS];
    for function in 0..forest.tables.layout.functions() {
        parents[function] = parent_of(forest, function);
    }
    parents
}

// Writes the message of a variable over neutral cells.
pub(crate) fn send_variable<V: Scale>(
    forest: &RootedForest,
    variable: usize,
    parents: &[usize; MOST_FUNCTIONS],
    values: &mut Board<V>,
)
    requires variable { variable < variables (problem_in forest.now) }
    requires rooted { Rooted forest.now }
    requires parents { Parents forest.now parents.now }
    requires values { 128 ≤ values.old.rows }
    requires neutral { (k : ℕ) → variable_cells (problem_in forest.now) variable k → Holds V.Scale.means V.Scale.within values.old.cells.now k V.Scale.rules.neutral 0 }
    ensures sent { SendsVariable V.Scale.rules V.Scale.means V.Scale.within (problem_in forest.now) (kept_in forest.now) (hanging_in forest.now) variable values.old.cells.now values.new.cells.now }
    ensures values { OnlyAt (variable_cells (problem_in forest.now) variable) values.old.cells.now values.new.cells.now }
    ensures same { SameLent values.old values.new }
{
    let layout = &forest.tables.layout;
    let size = layout.domains()[variable] as usize;
    // By number: it is all that a function is known by here.
    for function in 0..layout.functions() {
        if parents[function] == variable {
            join_row(values, variable, function, size);
        }
    }
}
