// From the tables of a problem to its kept links, hung, in one call: with the lightest links removed, or with all links where they form no cycle.
#![tactic(auto)]

mod bounded;
mod spanned;
mod straight;
mod weighing;

pub use bounded::bounded_forest;
pub use spanned::Forest;
pub use straight::straight_forest;
