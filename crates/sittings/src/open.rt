// The problem that is open, whichever of the four scales it is in.
use engine::Problem;
use scale::{Capped, Points, Ranked, Weakest};

#[derive(Drop)]
pub(crate) enum Open {
    // No problem is open yet.
    Nothing,
    Points(Problem<Points>),
    Capped(Problem<Capped>),
    Ranked(Problem<Ranked>),
    Weakest(Problem<Weakest>),
}
