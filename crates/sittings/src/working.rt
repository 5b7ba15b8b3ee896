// Work on the problem that is open.
ghost use Rattle.sittings.specs.Working.{Asked};

use crate::asking::{ask, ask_measuring};
use crate::open::Open;
use crate::reply::Reply;
use crate::request::Request;
use scale::{Capped, Points, Ranked, Scale, Weakest};
use solving::VALUE_CELLS;

// What a request makes of the problem, in its scale.
pub(crate) fn work(problem: &mut Open, request: &Request) -> Reply
    ensures { Asked problem.old request.now result problem.new }
{
    match problem {
        Open::Nothing => Reply::Unknown,
        Open::Points(points) => ask_measuring(
            points,
            &mut [Points::neutral(); VALUE_CELLS],
            request,
        ),
        Open::Capped(capped) => ask_measuring(
            capped,
            &mut [Capped::neutral(); VALUE_CELLS],
            request,
        ),
        Open::Ranked(ranked) => ask_measuring(
            ranked,
            &mut [Ranked::neutral(); VALUE_CELLS],
            request,
        ),
        Open::Weakest(weakest) => ask(weakest, &mut [Weakest::neutral(); VALUE_CELLS], request),
    }
}
