// Solving: from the tables of a problem to its report, with the messages and choices left in two stores that the caller lends.
#![tactic(auto)]

mod bounded;
mod checking;
mod clearing;
mod filling;
mod report;
mod straight;
mod telling;

pub use bounded::bounded_solve;
pub use checking::{CHOICE_CELLS, VALUE_CELLS};
pub use report::Report;
pub use straight::straight_solve;
