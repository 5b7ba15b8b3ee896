// The domains and scopes of a problem, within the sizes that a problem may have.
#![tactic(auto)]

mod fault;
mod layout;
mod scope;
mod sizes;

pub use fault::ProblemFault;
pub use layout::Layout;
pub use sizes::{MOST_FUNCTIONS, MOST_IN_TABLE, MOST_PLACES, MOST_VARIABLES, MOST_WORDS};
