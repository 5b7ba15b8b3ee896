// Theorems of calls in any order, at any scale of values `E`. Each function stands for one: its contract is the theorem.
#![tactic(auto)]

ghost use Rattle.calls.specs.Theorems.{OneAnswer, EmptyBegins, StaysWithin, ReportOfTables, PromisesStand, StepsCarry};
ghost use Rattle.calls.specs.Promise.{PlainPromise, MeasuringPromise};

use scale::{Measuring, Scale};

// Within the sizes every call has exactly one answer, and leads to exactly one state.
pub fn one_answer<E>()
    ensures { OneAnswer E }
{}

// From any start, after any list of calls, a report that stands keeps what is guaranteed.
pub fn promises_stand<E>()
    ensures promises { PromisesStand E }
    ensures empty { EmptyBegins E }
    ensures within { StaysWithin E }
    ensures stands { ReportOfTables E }
{}

// On a scale of the engine, whatever is a step carries the promises.
pub fn steps_carry<V: Scale>()
    ensures carry { StepsCarry V.Scale.rules }
    ensures promise { PlainPromise V.Scale.rules }
{}

// On a measuring scale, a report guarantees its ceiling, its tree value and the weight of its removed links.
pub fn measuring_promise<V: Measuring>()
    ensures { MeasuringPromise V.Scale.rules }
{}
