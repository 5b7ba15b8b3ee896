// What the calls on a problem do to its tables: adding, setting, weighing, scoring.
#![tactic(auto)]

mod adding;
mod scoring;
mod setting;
mod weighing;

pub use adding::{add_function, add_variable};
pub use scoring::score_of;
pub use setting::set_entry;
pub use weighing::weigh;
