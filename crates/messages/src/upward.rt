// What comes up to a function from the variables below it.
ghost use Rattle.std.specs.Prelude.{ℕ, ◌<◌, ◌≤◌, slice_index};
ghost use Rattle.joining.specs.Counts.{counts};
ghost use Rattle.joining.specs.Standing.{StandsFor};
ghost use Rattle.messages.specs.Places.{place_in, count_in};
ghost use Rattle.messages.specs.Upward.{upward, BelowHeld, WithBelow};

use crate::place::Place;
use crate::places::Places;
use board::Board;
use layout::MOST_PLACES;
use scale::Scale;

// What comes up from the variables below, at these values of the places.
pub(crate) fn from_below<V: Scale>(
    places: &Places,
    values: &Board<V>,
    combination: &[usize; MOST_PLACES],
) -> V
    requires rows { 64 ≤ values.now.rows }
    requires inside { (p : ℕ) → p < count_in places.now → slice_index combination.now p < (place_in places.now p).size }
    ensures { (q : ℕ → ℕ → V.Scale.Exact) (n : ℕ → ℕ → ℕ) → BelowHeld V.Scale.rules V.Scale.means V.Scale.within places.now values.now.cells.now q n → upward counts places.now n combination.now (count_in places.now) ≤ 1024 → StandsFor V.Scale.means V.Scale.within (upward V.Scale.rules places.now q combination.now (count_in places.now)) (upward counts places.now n combination.now (count_in places.now)) result }
{
    let mut sum = V::neutral();
    for (p, place) in places.list().iter().enumerate() {
        if place.below {
            sum = sum.join(values.get(place.variable as usize, combination[p]));
        }
    }
    sum
}

// An entry with what comes up to it: `up` by all places but the last, and the message of the variable at the last place, if it is below, at its value x.
pub(crate) fn with_below<V: Scale>(word: u32, up: V, last: &Place, x: usize, values: &Board<V>) -> V
    requires rows { 64 ≤ values.now.rows }
    requires variable { last.now.variable < 64 }
    requires value { x < 16 }
    ensures { WithBelow V.Scale.rules V.Scale.means V.Scale.within values.now.cells.now word up last.now x result }
{
    let below = if last.below {
        up.join(values.get(last.variable as usize, x))
    } else {
        up
    };
    V::value_of(word).join(below)
}
