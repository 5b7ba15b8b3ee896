// The message of a function, and its choices.
ghost use Rattle.std.specs.Prelude.{◌≡◌, ℕ, ◌<◌, ◌≤◌, length};
ghost use Rattle.board.specs.SameLent.{SameLent};
ghost use Rattle.theory.specs.Problem.{functions, product};
ghost use Rattle.messages.specs.Places.{place_in, count_in, sizes_in};
ghost use Rattle.messages.specs.Rooted.{Rooted, problem_in, kept_in, hanging_in};
ghost use Rattle.messages.specs.Sending.{SendsFunction, function_cells, choice_cells};
ghost use Rattle.messages.specs.Sent.{function_cell, choice_cell};
ghost use Rattle.messages.specs.Upward.{Entered, EnteredFrom, OnlyAt};

use crate::cutting::lay_cut;
use crate::entries::{best_entries, write_choices};
use crate::places::Places;
use crate::rooted::RootedForest;
use board::Board;
use layout::MOST_IN_TABLE;
use scale::Scale;

// Writes the message of a function and its choices, by its cut table.
fn send_entries<V: Scale>(
    places: &Places,
    function: usize,
    cuts: &[u32],
    values: &mut Board<V>,
    choices: &mut Board<u16>,
)
    requires function { function < 64 }
    requires cuts { length cuts.now ≡ product (sizes_in places.now) }
    requires small { length cuts.now ≤ 1024 }
    requires parent { places.now.parent < count_in places.now }
    requires values { 128 ≤ values.old.rows }
    requires choices { 64 ≤ choices.old.rows }
    ensures sent { Entered V.Scale.rules V.Scale.means V.Scale.within places.now function cuts.now values.old.cells.now values.new.cells.now choices.new.cells.now }
    ensures values { OnlyAt (λ k. (x : ℕ) × (x < (place_in places.now places.now.parent).size) × (k ≡ function_cell function x)) values.old.cells.now values.new.cells.now }
    ensures choices { OnlyAt (λ k. (x : ℕ) × (x < (place_in places.now places.now.parent).size) × (k ≡ choice_cell function x)) choices.old.cells.now choices.new.cells.now }
    ensures same { SameLent values.old values.new × SameLent choices.old choices.new }
{
    let best = best_entries(places, function, cuts, values);
    let size = places.place(places.parent()).size as usize;
    write_choices(&best[..size], function, choices);
}

// The same by its table, where links are removed: lays the cut table in the room first.
fn send_cut<V: Scale>(
    places: &Places,
    function: usize,
    table: &[u32],
    room: &mut [u32; MOST_IN_TABLE],
    values: &mut Board<V>,
    choices: &mut Board<u16>,
)
    requires function { function < 64 }
    requires table { length table.now ≡ product (sizes_in places.now) }
    requires small { length table.now ≤ 1024 }
    requires parent { places.now.parent < count_in places.now }
    requires values { 128 ≤ values.old.rows }
    requires choices { 64 ≤ choices.old.rows }
    ensures sent { EnteredFrom V.Scale.rules V.Scale.means V.Scale.within places.now function table.now values.old.cells.now values.new.cells.now choices.new.cells.now }
    ensures values { OnlyAt (λ k. (x : ℕ) × (x < (place_in places.now places.now.parent).size) × (k ≡ function_cell function x)) values.old.cells.now values.new.cells.now }
    ensures choices { OnlyAt (λ k. (x : ℕ) × (x < (place_in places.now places.now.parent).size) × (k ≡ choice_cell function x)) choices.old.cells.now choices.new.cells.now }
    ensures same { SameLent values.old values.new × SameLent choices.old choices.new }
{
    let cuts = &mut room[..table.len()];
    lay_cut::<V>(places, table, cuts);
    send_entries(places, function, cuts, values, choices);
}

// The same by its table, which is its cut table where no link is removed.
fn send_table<V: Scale>(
    places: &Places,
    function: usize,
    table: &[u32],
    room: &mut [u32; MOST_IN_TABLE],
    values: &mut Board<V>,
    choices: &mut Board<u16>,
)
    requires function { function < 64 }
    requires table { length table.now ≡ product (sizes_in places.now) }
    requires small { length table.now ≤ 1024 }
    requires parent { places.now.parent < count_in places.now }
    requires values { 128 ≤ values.old.rows }
    requires choices { 64 ≤ choices.old.rows }
    ensures sent { EnteredFrom V.Scale.rules V.Scale.means V.Scale.within places.now function table.now values.old.cells.now values.new.cells.now choices.new.cells.now }
    ensures values { OnlyAt (λ k. (x : ℕ) × (x < (place_in places.now places.now.parent).size) × (k ≡ function_cell function x)) values.old.cells.now values.new.cells.now }
    ensures choices { OnlyAt (λ k. (x : ℕ) × (x < (place_in places.now places.now.parent).size) × (k ≡ choice_cell function x)) choices.old.cells.now choices.new.cells.now }
    ensures same { SameLent values.old values.new × SameLent choices.old choices.new }
{
    if places.all_kept() {
        send_entries(places, function, table, values, choices);
    } else {
        send_cut(places, function, table, room, values, choices);
    }
}

// Writes the message of a function, for each value of its parent, and its choices. The room serves one function after another: clearing one for each would take longer
// than a small function.
pub(crate) fn send_function<V: Scale>(
    forest: &RootedForest,
    function: usize,
    room: &mut [u32; MOST_IN_TABLE],
    values: &mut Board<V>,
    choices: &mut Board<u16>,
)
    requires function { function < functions (problem_in forest.now) }
    requires rooted { Rooted forest.now }
    requires values { 128 ≤ values.old.rows }
    requires choices { 64 ≤ choices.old.rows }
    ensures sent { SendsFunction V.Scale.rules V.Scale.means V.Scale.within (problem_in forest.now) (kept_in forest.now) (hanging_in forest.now) function values.old.cells.now values.new.cells.now choices.new.cells.now }
    ensures values { OnlyAt (function_cells (problem_in forest.now) (hanging_in forest.now) function) values.old.cells.now values.new.cells.now }
    ensures choices { OnlyAt (choice_cells (problem_in forest.now) (hanging_in forest.now) function) choices.old.cells.now choices.new.cells.now }
    ensures same { SameLent values.old values.new × SameLent choices.old choices.new }
{
    let places = Places::of(forest.tables, forest.kept, forest.hung, function);
    let table = forest.tables.table(function);
    send_table(&places, function, table, room, values, choices);
}
