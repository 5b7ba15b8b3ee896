// The forest of the kept links of a layout, hung from the lowest variable of each part.
#![tactic(auto)]

mod around;
mod function_set;
mod hung;
mod node;

pub use hung::{Hung, hang};
pub use node::{Function, Node, Variable};
