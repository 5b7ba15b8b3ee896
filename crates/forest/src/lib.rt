// Links of a layout that form no cycle.
#![tactic(auto)]

mod cycles;
mod ends;
mod keeping;
mod links;
mod listing;

pub use cycles::has_cycle;
pub use ends::{NODES, is_link, variable_of};
pub use keeping::{keep_in_order, kept_by_rule};
pub use links::{LINKS, Links};
pub use listing::list_links;
