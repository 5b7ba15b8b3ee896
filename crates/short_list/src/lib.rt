// Short lists in room of a fixed size.
#![tactic(auto)]

mod list;

pub use list::ShortList;
