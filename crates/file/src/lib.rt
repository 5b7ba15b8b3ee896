// Problem files: reading one into tables, and writing tables out as one.
#![tactic(auto)]

mod entries;
mod fault;
mod header;
mod places;
mod reading;
mod scopes;
mod sections;
mod writing;

pub use fault::{FileCause, FileFault, located};
pub use header::scale_code;
pub use reading::read;
pub use writing::write;
