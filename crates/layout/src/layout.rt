// What a layout holds, and what always holds of it.
ghost use Rattle.std.specs.Prelude.{◌≡◌, ℕ, ◌<◌, ◌≤◌, map, length, sum_by, slice_index};
ghost use Rattle.theory.specs.Sizes.{combinations, EachScope, Known};
ghost use Rattle.short_list.specs.View.{items_of};
ghost use Rattle.layout.specs.Scopes.{listed, Placed};

use crate::scope::Scope;
use crate::sizes::{MOST_FUNCTIONS, MOST_VARIABLES};
use short_list::ShortList;

mod adding;
mod reading;

#[derive(Clone, Copy)]
pub struct Layout {
    domains: ShortList<u8, MOST_VARIABLES>,
    scopes: ShortList<Scope, MOST_FUNCTIONS>,
    // Where the table of each function begins among the words of all; after the last one, how many words there are.
    starts: [usize; MOST_FUNCTIONS + 1],
    ghost room: { length starts ≡ 65 },
    ghost sizes: { (v : ℕ) → v < length (items_of domains) → (1 ≤ slice_index (items_of domains) v) × (slice_index (items_of domains) v ≤ 16) },
    ghost places: { EachScope (λ s. (1 ≤ length s) × (length s ≤ 4)) (map listed (items_of scopes)) },
    ghost known: { EachScope (Known (length (items_of domains))) (map listed (items_of scopes)) },
    ghost small: { EachScope (λ s. combinations (items_of domains) s ≤ 1024) (map listed (items_of scopes)) },
    ghost few: { sum_by (combinations (items_of domains)) (map listed (items_of scopes)) ≤ 4096 },
    ghost used: { slice_index starts (length (map listed (items_of scopes))) ≡ sum_by (combinations (items_of domains)) (map listed (items_of scopes)) },
    ghost placed: { Placed (items_of domains) (map listed (items_of scopes)) starts },
}
