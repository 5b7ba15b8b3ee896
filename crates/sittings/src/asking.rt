// What each request makes of a problem, in any scale that has it.
ghost use Rattle.std.specs.Prelude.{◌≡◌, length};
ghost use Rattle.theory.specs.KeptBy.{straight, bounded};
ghost use Rattle.calls.specs.State.{Call};
ghost use Rattle.engine.specs.View.{state_of};
ghost use Rattle.sittings.specs.Obeying.{Obeyed};
ghost use Rattle.sittings.specs.Requests.{call_of, plain_call_of, Obeys};

use crate::reply::Reply;
use crate::request::Request;
use engine::Problem;
use scale::{Measuring, Scale};
use sheets::told;
use solving::{CHOICE_CELLS, Report};

pub(crate) fn add_variable<V: Scale>(problem: &mut Problem<V>, size: usize) -> Reply
    ensures { Obeyed V.Scale.rules (state_of V.Scale.means problem.old) (Call.add_variable size) result (state_of V.Scale.means problem.new) }
{
    match problem.add_variable(size) {
        Ok(number) => Reply::VariableAdded(number),
        Err(fault) => Reply::Refused(fault.number()),
    }
}

pub(crate) fn add_function<V: Scale>(problem: &mut Problem<V>, scope: &[usize]) -> Reply
    ensures { Obeyed V.Scale.rules (state_of V.Scale.means problem.old) (Call.add_function scope.now) result (state_of V.Scale.means problem.new) }
{
    match problem.add_function(scope) {
        Ok(number) => Reply::FunctionAdded(number),
        Err(fault) => Reply::Refused(fault.number()),
    }
}

pub(crate) fn set_entry<V: Scale>(
    problem: &mut Problem<V>,
    function: usize,
    index: usize,
    word: u32,
) -> Reply
    ensures { Obeyed V.Scale.rules (state_of V.Scale.means problem.old) (Call.set_entry function index word) result (state_of V.Scale.means problem.new) }
{
    match problem.set_entry(function, index, word) {
        Ok(()) => Reply::EntrySet { function, index },
        Err(fault) => Reply::Refused(fault.number()),
    }
}

pub(crate) fn solve_straight<V: Scale>(problem: &mut Problem<V>, values: &mut [V]) -> Reply
    requires { length values.old ≡ 2304 }
    ensures { Obeyed V.Scale.rules (state_of V.Scale.means problem.old) (Call.solve straight 2304 1024) result (state_of V.Scale.means problem.new) }
{
    let mut choices = [0; CHOICE_CELLS];
    let mut report = Report::blank();
    match problem.straight_solve(values, &mut choices, &mut report) {
        Ok(()) => Reply::Told(told(problem, &report)),
        Err(fault) => Reply::Refused(fault.number()),
    }
}

pub(crate) fn tell<V: Scale>(problem: &Problem<V>) -> Reply
    ensures { Obeyed V.Scale.rules (state_of V.Scale.means problem.now) Call.report result (state_of V.Scale.means problem.now) }
{
    let mut report = Report::blank();
    match problem.report(&mut report) {
        Ok(()) => Reply::Told(told(problem, &report)),
        Err(fault) => Reply::Refused(fault.number()),
    }
}

pub(crate) fn score<V: Scale>(problem: &Problem<V>, list: &[usize]) -> Reply
    ensures { Obeyed V.Scale.rules (state_of V.Scale.means problem.now) (Call.score list.now) result (state_of V.Scale.means problem.now) }
{
    match problem.score(list) {
        Ok(score) => Reply::Scored(score.show()),
        Err(fault) => Reply::Refused(fault.number()),
    }
}

pub(crate) fn solve_bounded<V: Measuring>(problem: &mut Problem<V>, values: &mut [V]) -> Reply
    requires { length values.old ≡ 2304 }
    ensures { Obeyed V.Scale.rules (state_of V.Scale.means problem.old) (Call.solve bounded 2304 1024) result (state_of V.Scale.means problem.new) }
{
    let mut choices = [0; CHOICE_CELLS];
    let mut report = Report::blank();
    match problem.bounded_solve(values, &mut choices, &mut report) {
        Ok(()) => Reply::Told(told(problem, &report)),
        Err(fault) => Reply::Refused(fault.number()),
    }
}

pub(crate) fn weigh<V: Measuring>(problem: &Problem<V>, function: usize, place: usize) -> Reply
    ensures { Obeyed V.Scale.rules (state_of V.Scale.means problem.now) (Call.weight function place) result (state_of V.Scale.means problem.now) }
{
    match problem.weight(function, place) {
        Ok(weight) => Reply::Weighed(weight.show()),
        Err(fault) => Reply::Refused(fault.number()),
    }
}

// A request that every scale has; what only a measuring scale has is unknown.
pub(crate) fn ask<V: Scale>(problem: &mut Problem<V>, values: &mut [V], request: &Request) -> Reply
    requires { length values.old ≡ 2304 }
    ensures { Obeys V.Scale.rules plain_call_of (state_of V.Scale.means problem.old) request.now result (state_of V.Scale.means problem.new) }
{
    match request {
        Request::Variable(size) => add_variable(problem, *size),
        Request::Function(scope) => add_function(problem, scope.as_slice()),
        Request::Set {
            function,
            index,
            word,
        } => set_entry(problem, *function, *index, *word),
        Request::Score(list) => score(problem, list.as_slice()),
        Request::Straight => solve_straight(problem, values),
        Request::Report => tell(problem),
        Request::Bounded | Request::Weight { .. } => Reply::Unknown,
    }
}

// Any request.
pub(crate) fn ask_measuring<V: Measuring>(
    problem: &mut Problem<V>,
    values: &mut [V],
    request: &Request,
) -> Reply
    requires { length values.old ≡ 2304 }
    ensures { Obeys V.Scale.rules call_of (state_of V.Scale.means problem.old) request.now result (state_of V.Scale.means problem.new) }
{
    match request {
        Request::Bounded => solve_bounded(problem, values),
        Request::Weight { function, place } => weigh(problem, *function, *place),
        _ => ask(problem, values, request),
    }
}
