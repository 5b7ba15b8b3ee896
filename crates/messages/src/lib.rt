// Messages up the hung forest of the kept links.
#![tactic(auto)]

mod cutting;
mod entries;
mod functions;
mod place;
mod places;
mod rooted;
mod sending;
mod upward;
mod variables;

pub use place::Place;
pub use places::Places;
pub use rooted::RootedForest;
pub use sending::send_messages;
