// The variables of a function, by place: at most four, and none twice.
ghost use Rattle.std.specs.Prelude.{ℕ, ◌<◌, length, ◌≢◌, slice_index};
ghost use Rattle.short_list.specs.View.{items_of};

use crate::sizes::MOST_PLACES;
use short_list::ShortList;

mod packing;

#[derive(Clone, Copy)]
pub(crate) struct Scope {
    variables: ShortList<u8, MOST_PLACES>,
    ghost distinct: { (p q : ℕ) → p < q → q < length (items_of variables) → slice_index (items_of variables) p ≢ slice_index (items_of variables) q },
}
