// The tree value: the join of the roots' highest messages.
ghost use Rattle.std.specs.Prelude.{◌≡◌, ◌<◌, ◌≤◌, length, slice_index};
ghost use Rattle.theory.specs.Forest.{is_root};
ghost use Rattle.layout.specs.View.{domains_of};
ghost use Rattle.tables.specs.View.{problem_of};
ghost use Rattle.hanging.specs.Forest.{hanging_of};
ghost use Rattle.figures.specs.TreeValue.{HighestIn, HighestCell, RootHighest, TreeValueOf};

use board::Board;
use hanging::Hung;
use joining::joined;
use layout::Layout;
use scale::{Scale, higher};
use tables::Tables;

// Whether the variable hangs from no function.
fn is_root(hung: &Hung, variable: usize) -> bool
    requires { variable < 64 }
    ensures { result ≡ is_root (hanging_of hung.now) variable }
{
    hung.variable(variable).parent.is_none()
}

// The highest of some values.
fn highest_in<V: Scale>(values: &[V]) -> V
    requires { 1 ≤ length values.now }
    ensures { HighestIn V.Scale.rules V.Scale.means values.now result }
{
    let mut best = values[0];
    for value in values {
        best = higher(best, *value);
    }
    best
}

// The highest of the first cells of a row.
fn highest<V: Scale>(values: &Board<V>, row: usize, size: usize) -> V
    requires row { row < values.now.rows }
    requires some { 1 ≤ size }
    requires few { size ≤ 16 }
    ensures { HighestCell V.Scale.rules V.Scale.means values.now.cells.now row size result }
{
    let cells = values.part(row, 1);
    highest_in(&cells[..size])
}

// The highest of a variable's message.
fn highest_message<V: Scale>(layout: &Layout, values: &Board<V>, variable: usize) -> V
    requires rows { 64 ≤ values.now.rows }
    requires known { variable < length (domains_of layout.now) }
    ensures { HighestCell V.Scale.rules V.Scale.means values.now.cells.now variable (slice_index (domains_of layout.now) variable) result }
{
    let size = layout.domains()[variable] as usize;
    highest(values, variable, size)
}

// The highest of a root's message; nothing for a variable that hangs from a function.
fn root_message<V: Scale>(
    tables: &Tables,
    hung: &Hung,
    values: &Board<V>,
    variable: usize,
) -> Option<V>
    requires rows { 64 ≤ values.now.rows }
    requires known { variable < length (domains_of tables.now.layout) }
    ensures { RootHighest V.Scale.rules V.Scale.means (problem_of tables.now) (hanging_of hung.now) values.now.cells.now variable result }
{
    if is_root(hung, variable) {
        Some(highest_message(&tables.layout, values, variable))
    } else {
        None
    }
}

// The highest messages of the roots, joined in number order.
fn joined_roots<V: Scale>(tables: &Tables, hung: &Hung, values: &Board<V>, variables: usize) -> V
    requires rows { 64 ≤ values.now.rows }
    requires variables { variables ≡ length (domains_of tables.now.layout) }
    ensures { TreeValueOf V.Scale.rules V.Scale.means V.Scale.within (problem_of tables.now) (hanging_of hung.now) values.now.cells.now result }
{
    joined(
        variables,
        |variable| root_message(tables, hung, values, variable),
    )
}

// The tree value, from the messages of the variables: the highest of each root's, joined in number order; neutral if there are no variables.
pub fn tree_value<V: Scale>(tables: &Tables, hung: &Hung, values: &Board<V>) -> V
    requires { 64 ≤ values.now.rows }
    ensures { TreeValueOf V.Scale.rules V.Scale.means V.Scale.within (problem_of tables.now) (hanging_of hung.now) values.now.cells.now result }
{
    joined_roots(tables, hung, values, tables.layout.domains().len())
}
