// The scale of a house: marks in half points, under penalties.
#![tactic(auto)]

mod marks;

pub use marks::{Marks, word_of};
