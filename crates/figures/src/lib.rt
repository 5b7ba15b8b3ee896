// Figures of a report.
#![tactic(auto)]

mod ceilings;
mod removed;
mod roots;
mod shares;

pub use ceilings::ceiling;
pub use removed::removed_weight;
pub use roots::tree_value;
pub use shares::share;
