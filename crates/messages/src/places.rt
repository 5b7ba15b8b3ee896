// The places of a function.
ghost use Rattle.std.specs.Prelude.{ℕ, ◌<◌, length, slice_index_or};
ghost use Rattle.short_list.specs.View.{items_of};
ghost use Rattle.messages.specs.Place.{Small, no_place};

use crate::place::Place;
use layout::MOST_PLACES;
use short_list::ShortList;

mod combining;
mod making;
mod parting;
mod reading;

#[derive(Clone, Copy)]
pub struct Places {
    // One for each variable of the scope, in its order.
    list: ShortList<Place, MOST_PLACES>,
    // The place by which the function hangs.
    pub(crate) parent: usize,
    ghost small: { (p : ℕ) → p < length (items_of list) → Small (slice_index_or (items_of list) p no_place) },
}
