// A sitting: work on an open problem, command by command, in any of the four scales.
#![tactic(auto)]

mod asking;
mod command;
mod line;
mod numbers;
mod open;
mod opening;
mod reply;
mod request;
mod sitting;
mod working;
mod writing;

pub use command::Command;
pub use line::Line;
pub use reply::Reply;
pub use request::Request;
pub use sitting::Sitting;
