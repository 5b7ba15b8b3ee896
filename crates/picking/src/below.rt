// The values of the variables below a function.
ghost use Rattle.std.specs.Prelude.{◌≡◌, ℕ, ◌<◌, ◌≤◌, take, ◌≢◌, slice_index};
ghost use Rattle.theory.specs.Problem.{functions, product};
ghost use Rattle.rules.specs.Figures.{planned};
ghost use Rattle.messages.specs.Combinations.{combination};
ghost use Rattle.messages.specs.Places.{count_in, place_in, sizes_in};
ghost use Rattle.messages.specs.Rooted.{Rooted, problem_in, hanging_in};
ghost use Rattle.messages.specs.Sent.{choice_cell};
ghost use Rattle.picking.specs.Steps.{Handed, BelowGiven};

use crate::draft::Draft;
use board::Board;
use layout::MOST_PLACES;
use messages::{Places, RootedForest};

// The values that a function takes at the plan's value of its parent, by place.
fn taken(
    places: &Places,
    choices: &Board<u16>,
    draft: &Draft,
    function: usize,
) -> [usize; MOST_PLACES]
    requires parent { places.now.parent < count_in places.now }
    requires row { function < choices.now.rows }
    ensures values { slice_index choices.now.cells.now (choice_cell function (planned draft.now.values (place_in places.now places.now.parent).variable)) < product (sizes_in places.now) → take (count_in places.now) result ≡ combination (sizes_in places.now) (slice_index choices.now.cells.now (choice_cell function (planned draft.now.values (place_in places.now places.now.parent).variable))) }
    ensures fits { (p : ℕ) → p < count_in places.now → slice_index result p < (place_in places.now p).size }
{
    let parent = places.place(places.parent()).variable as usize;
    let index = choices.get(function, draft.value(parent));
    places.combination(index as usize)
}

// Gives each variable that hangs from the function the value of its place.
fn give_below(draft: &mut Draft, places: &Places, values: [usize; MOST_PLACES])
    requires fits { (p : ℕ) → p < count_in places.now → slice_index values p < (place_in places.now p).size }
    requires distinct { (p q : ℕ) → p < q → q < count_in places.now → (place_in places.now p).variable ≢ (place_in places.now q).variable }
    ensures { Handed places.now values (count_in places.now) draft.old.values draft.new.values }
{
    for (p, place) in places.list().iter().enumerate() {
        if place.below {
            draft.give(place.variable as usize, values[p]);
        }
    }
}

// Gives the variables below a function what the function takes at its parent's value.
pub(crate) fn pick_below(
    forest: &RootedForest,
    choices: &Board<u16>,
    draft: &mut Draft,
    function: usize,
)
    requires known { function < functions (problem_in forest.now) }
    requires rooted { Rooted forest.now }
    requires rows { 64 ≤ choices.now.rows }
    ensures { BelowGiven (problem_in forest.now) (hanging_in forest.now) choices.now.cells.now function draft.old.values draft.new.values }
{
    let places = Places::of(forest.tables, forest.kept, forest.hung, function);
    let values = taken(&places, choices, draft, function);
    give_below(draft, &places, values);
}
