// A report that stands.
use solving::Report;

// The two ways to solve.
#[derive(Clone, Copy)]
pub enum Rule {
    Straight,
    Bounded,
}

// A report, and the rule that it was made by.
#[derive(Clone, Copy)]
pub struct Standing<V> {
    pub rule: Rule,
    pub report: Report<V>,
}
