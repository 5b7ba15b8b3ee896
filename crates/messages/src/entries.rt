// The best entries of a function, row by row of its cut table. A row is a stretch of it along which only the value at the last place changes.
ghost use Rattle.std.specs.Prelude.{◌≡◌, ℕ, ◌+◌, ◌<◌, ◌≤◌, length, slice_index_or, Some};
ghost use Rattle.board.specs.SameLent.{SameLent};
ghost use Rattle.theory.specs.Problem.{product};
ghost use Rattle.messages.specs.Places.{place_in, count_in, sizes_in};
ghost use Rattle.messages.specs.Rows.{RowAt, parent_at};
ghost use Rattle.messages.specs.Sent.{function_cell, choice_cell};
ghost use Rattle.messages.specs.Upward.{best_of, better, OuterUp, BestAt, BestEntries, Chosen, OnlyAt};

use crate::places::Places;
use crate::upward::{from_below, with_below};
use board::{Board, ROW};
use layout::MOST_VARIABLES;
use scale::Scale;

// The entries of a row that count.
#[derive(Clone, Copy)]
struct Row<V> {
    // The index where the row begins.
    at: usize,
    // How many there are: all, or the first alone where the last place is removed.
    many: usize,
    // What comes up to them by all places but the last.
    up: V,
}

// One entry more of a function at the value x of its parent. The index of the best so far is `best`, and its value stands in the board.
fn consider<V: Scale>(
    function: usize,
    x: usize,
    best: Option<u16>,
    value: V,
    index: u16,
    values: &mut Board<V>,
) -> Option<u16>
    requires function { function < 64 }
    requires value { x < 16 }
    requires values { 128 ≤ values.old.rows }
    ensures here { (d : V) → best_of result (slice_index_or values.new.cells.now (function_cell function x) d) ≡ Some (better V.Scale.rules V.Scale.means (best_of best (slice_index_or values.old.cells.now (function_cell function x) d)) (record { value = value; index = index })) }
    ensures values { OnlyAt (λ k. k ≡ function_cell function x) values.old.cells.now values.new.cells.now }
    ensures same { SameLent values.old values.new }
{
    if best.is_some() && values.get(MOST_VARIABLES + function, x).at_least(value) {
        return best;
    }
    values.put(MOST_VARIABLES + function, x, value);
    Some(index)
}

// The better of the best entry so far, if there is one, and one more: its index, and its value, which says nothing without one.
fn better_of<V: Scale>(best: (Option<u16>, V), value: V, index: u16) -> (Option<u16>, V)
    ensures { best_of result.0 result.1 ≡ Some (better V.Scale.rules V.Scale.means (best_of best.0 best.1) (record { value = value; index = index })) }
{
    let (held, highest) = best;
    if held.is_some() && highest.at_least(value) {
        return best;
    }
    (Some(index), value)
}

// With the entries of a row more, the best so far at the one value that the parent has along it.
fn best_along<V: Scale>(
    places: &Places,
    cuts: &[u32],
    row: &Row<V>,
    best: (Option<u16>, V),
    values: &Board<V>,
) -> (Option<u16>, V)
    requires cuts { length cuts.now ≡ product (sizes_in places.now) }
    requires small { length cuts.now ≤ 1024 }
    requires parent { places.now.parent + 1 < count_in places.now }
    requires values { 64 ≤ values.now.rows }
    requires row { RowAt places.now row.now.at row.now.many }
    requires up { OuterUp V.Scale.rules V.Scale.means V.Scale.within places.now values.now.cells.now row.now.at row.now.up }
    requires best { BestAt V.Scale.rules V.Scale.means V.Scale.within places.now cuts.now values.now.cells.now row.now.at (parent_at places.now row.now.at) best.0 best.1 }
    ensures { BestAt V.Scale.rules V.Scale.means V.Scale.within places.now cuts.now values.now.cells.now (row.now.at + row.now.many) (parent_at places.now row.now.at) result.0 result.1 }
{
    let last = places.last();
    let mut best = best;
    for (x, word) in cuts[row.at..row.at + row.many].iter().enumerate() {
        let value = with_below(*word, row.up, &last, x, values);
        best = better_of(best, value, (row.at + x) as u16);
    }
    best
}

// The same at each value of the parent, which is at the last place: each entry of the row is of another value.
fn best_across<V: Scale>(
    places: &Places,
    function: usize,
    cuts: &[u32],
    row: &Row<V>,
    best: &mut [Option<u16>; ROW],
    values: &mut Board<V>,
)
    requires function { function < 64 }
    requires cuts { length cuts.now ≡ product (sizes_in places.now) }
    requires small { length cuts.now ≤ 1024 }
    requires parent { places.now.parent + 1 ≡ count_in places.now }
    requires values { 128 ≤ values.old.rows }
    requires row { RowAt places.now row.now.at row.now.many }
    requires up { OuterUp V.Scale.rules V.Scale.means V.Scale.within places.now values.old.cells.now row.now.at row.now.up }
    requires best { BestEntries V.Scale.rules V.Scale.means V.Scale.within places.now function cuts.now values.old.cells.now row.now.at best.old values.old.cells.now }
    ensures best { BestEntries V.Scale.rules V.Scale.means V.Scale.within places.now function cuts.now values.old.cells.now (row.now.at + row.now.many) best.new values.new.cells.now }
    ensures values { OnlyAt (λ k. (x : ℕ) × (x < (place_in places.now places.now.parent).size) × (k ≡ function_cell function x)) values.old.cells.now values.new.cells.now }
    ensures same { SameLent values.old values.new }
{
    let last = places.last();
    for (x, word) in cuts[row.at..row.at + row.many].iter().enumerate() {
        let value = with_below(*word, row.up, &last, x, values);
        best[x] = consider(function, x, best[x], value, (row.at + x) as u16, values);
    }
}

// The same where the parent is at another place: all are of its value x.
fn best_at<V: Scale>(
    places: &Places,
    function: usize,
    cuts: &[u32],
    row: &Row<V>,
    x: usize,
    best: &mut [Option<u16>; ROW],
    values: &mut Board<V>,
)
    requires function { function < 64 }
    requires cuts { length cuts.now ≡ product (sizes_in places.now) }
    requires small { length cuts.now ≤ 1024 }
    requires parent { places.now.parent + 1 < count_in places.now }
    requires value { x ≡ parent_at places.now row.now.at }
    requires fits { x < (place_in places.now places.now.parent).size }
    requires few { x < 16 }
    requires values { 128 ≤ values.old.rows }
    requires row { RowAt places.now row.now.at row.now.many }
    requires up { OuterUp V.Scale.rules V.Scale.means V.Scale.within places.now values.old.cells.now row.now.at row.now.up }
    requires best { BestEntries V.Scale.rules V.Scale.means V.Scale.within places.now function cuts.now values.old.cells.now row.now.at best.old values.old.cells.now }
    ensures best { BestEntries V.Scale.rules V.Scale.means V.Scale.within places.now function cuts.now values.old.cells.now (row.now.at + row.now.many) best.new values.new.cells.now }
    ensures values { OnlyAt (λ k. (x : ℕ) × (x < (place_in places.now places.now.parent).size) × (k ≡ function_cell function x)) values.old.cells.now values.new.cells.now }
    ensures same { SameLent values.old values.new }
{
    let held = (best[x], values.get(MOST_VARIABLES + function, x));
    let (index, highest) = best_along(places, cuts, row, held, values);
    best[x] = index;
    values.put(MOST_VARIABLES + function, x, highest);
}

// The same wherever the parent is; x is its value along the row, if it is not at the last place.
fn best_in_row<V: Scale>(
    places: &Places,
    function: usize,
    cuts: &[u32],
    row: &Row<V>,
    x: usize,
    best: &mut [Option<u16>; ROW],
    values: &mut Board<V>,
)
    requires function { function < 64 }
    requires cuts { length cuts.now ≡ product (sizes_in places.now) }
    requires small { length cuts.now ≤ 1024 }
    requires parent { places.now.parent < count_in places.now }
    requires value { places.now.parent + 1 < count_in places.now → x ≡ parent_at places.now row.now.at }
    requires fits { places.now.parent + 1 < count_in places.now → x < (place_in places.now places.now.parent).size }
    requires values { 128 ≤ values.old.rows }
    requires row { RowAt places.now row.now.at row.now.many }
    requires up { OuterUp V.Scale.rules V.Scale.means V.Scale.within places.now values.old.cells.now row.now.at row.now.up }
    requires best { BestEntries V.Scale.rules V.Scale.means V.Scale.within places.now function cuts.now values.old.cells.now row.now.at best.old values.old.cells.now }
    ensures best { BestEntries V.Scale.rules V.Scale.means V.Scale.within places.now function cuts.now values.old.cells.now (row.now.at + row.now.many) best.new values.new.cells.now }
    ensures values { OnlyAt (λ k. (x : ℕ) × (x < (place_in places.now places.now.parent).size) × (k ≡ function_cell function x)) values.old.cells.now values.new.cells.now }
    ensures same { SameLent values.old values.new }
{
    if places.parent + 1 == places.count() {
        best_across(places, function, cuts, row, best, values);
    } else {
        best_at(places, function, cuts, row, x, best, values);
    }
}

// Writes the message of a function: for each value of the parent, the best entry of the cut table joined with what comes up from below. Returns the first index
// where each stands. (The values stay in the board: a row of them would have to fit in memory, and nothing bounds the size of a `V`.)
pub(crate) fn best_entries<V: Scale>(
    places: &Places,
    function: usize,
    cuts: &[u32],
    values: &mut Board<V>,
) -> [Option<u16>; ROW]
    requires function { function < 64 }
    requires cuts { length cuts.now ≡ product (sizes_in places.now) }
    requires small { length cuts.now ≤ 1024 }
    requires parent { places.now.parent < count_in places.now }
    requires values { 128 ≤ values.old.rows }
    ensures best { BestEntries V.Scale.rules V.Scale.means V.Scale.within places.now function cuts.now values.old.cells.now (length cuts.now) result values.new.cells.now }
    ensures values { OnlyAt (λ k. (x : ℕ) × (x < (place_in places.now places.now.parent).size) × (k ≡ function_cell function x)) values.old.cells.now values.new.cells.now }
    ensures same { SameLent values.old values.new }
{
    let outer = places.outer();
    let last = places.last();
    let size = last.size as usize;
    let mut best = [None; ROW];
    let mut combination = outer.combination(0);
    for number in 0..cuts.len() / size {
        if outer.cut_index(&combination) == number {
            let row = Row {
                at: number * size,
                many: last.counted(),
                up: from_below(&outer, values, &combination),
            };
            let x = combination[places.parent];
            best_in_row(places, function, cuts, &row, x, &mut best, values);
        }
        outer.advance(&mut combination);
    }
    best
}

// Writes the choices of a function, in its row.
pub(crate) fn write_choices(best: &[Option<u16>], function: usize, choices: &mut Board<u16>)
    requires best { length best.now ≤ 16 }
    requires function { function < 64 }
    requires choices { 64 ≤ choices.old.rows }
    ensures chosen { Chosen best.now function choices.new.cells.now }
    ensures choices { OnlyAt (λ k. (x : ℕ) × (x < length best.now) × (k ≡ choice_cell function x)) choices.old.cells.now choices.new.cells.now }
    ensures same { SameLent choices.old choices.new }
{
    for (x, index) in best.iter().enumerate() {
        if let Some(index) = index {
            choices.put(function, x, *index);
        }
    }
}
