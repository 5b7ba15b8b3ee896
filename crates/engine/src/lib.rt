// The open problem: it holds a problem and the report that stands, and answers calls in any order.
#![tactic(auto)]

mod problem;
mod standing;

pub use problem::Problem;
