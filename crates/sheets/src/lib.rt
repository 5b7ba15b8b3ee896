// The sheet of a problem file: its problem solved, whichever of the four scales it is in.
#![tactic(auto)]

mod answering;
mod opening;
mod placing;
mod printing;
mod solving_bounded;
mod solving_straight;
mod telling;

pub use answering::sheet;
pub use printing::{Sheet, Unheaded};
pub use telling::told;
