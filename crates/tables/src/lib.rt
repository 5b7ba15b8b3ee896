// The tables of a problem: its domains and scopes, and beside them the words.
#![tactic(auto)]

mod comparing;
mod scoring;
mod tables;
mod words;

pub use comparing::same;
pub use scoring::score;
pub use tables::Tables;
pub use words::check_word;
