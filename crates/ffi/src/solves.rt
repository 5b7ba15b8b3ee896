// Solving the problem of a file, in one of the two ways.
ghost use Rattle.std.specs.Prelude.{◌≡◌, ◌≤◌, length};
ghost use Rattle.theory.specs.Refusals.{Answered, Untouched};
ghost use Rattle.layout.specs.Numbers.{problem_number};
ghost use Rattle.file.specs.Numbers.{refusal};
ghost use Rattle.file.specs.Tests.{file_tests};
ghost use Rattle.engine.specs.View.{state_of};
ghost use Rattle.ffi.specs.Answers.{Told};
ghost use Rattle.ffi.specs.Reports.{store_tests, run_tests, Leaves, Shows};

use crate::numbers::{Figures, shown_figures};
use crate::opening::opened;
use crate::telling::told;
use crate::values::show_values;
use crate::ways::Way;
use engine::Problem;
use file::{FileFault, located};
use layout::ProblemFault;
use scale::Scale;
use solving::{Report, VALUE_CELLS};

// Solves the same problem so many times over, and shows what the last solve left.
fn solve_again<V: Scale, W: Way<V>>(
    problem: &mut Problem<V>,
    times: u32,
    values: &mut [V],
    choices: &mut [u16],
    shown: &mut [i32],
    place: &mut Figures,
) -> Result<(), ProblemFault>
    requires some { 1 ≤ times }
    requires values { length values.old ≡ 2304 }
    ensures answer { Answered problem_number (store_tests W.rule (length choices.old) (length shown.old) (state_of V.Scale.means problem.old).problem) (λ _. Leaves V.Scale.rules W.rule (state_of V.Scale.means problem.old).problem place.new choices.new shown.new) result }
    ensures place { Untouched result place.old place.new }
    ensures choices { Untouched result choices.old choices.new }
    ensures shown { Untouched result shown.old shown.new }
{
    if shown.len() != 2 * VALUE_CELLS {
        return Err(ProblemFault::StoreLength);
    }
    let mut report = Report::blank();
    for _ in 0..times {
        W::solve(problem, values, choices, &mut report)?;
    }
    *place = shown_figures(&report);
    show_values(values, shown);
    Ok(())
}

// Reads a file once, and solves its problem so many times over.
fn solve_file<V: Scale, W: Way<V>>(
    bytes: &[u8],
    times: u32,
    values: &mut [V],
    choices: &mut [u16],
    shown: &mut [i32],
    place: &mut Figures,
) -> Result<(), FileFault>
    requires { length values.old ≡ 2304 }
    ensures many { 1 ≤ times → Answered refusal (run_tests V.Scale.rules W.rule bytes.now (length choices.old) (length shown.old)) (λ _. Shows V.Scale.rules W.rule bytes.now place.new choices.new shown.new) result }
    ensures never { times ≡ 0 → Answered refusal (file_tests V.Scale.rules bytes.now) (λ _. (place.new ≡ place.old) × (choices.new ≡ choices.old) × (shown.new ≡ shown.old)) result }
    ensures place { Untouched result place.old place.new }
    ensures choices { Untouched result choices.old choices.new }
    ensures shown { Untouched result shown.old shown.new }
{
    let mut problem = opened(bytes)?;
    if times == 0 {
        return Ok(());
    }
    located(
        solve_again::<V, W>(&mut problem, times, values, choices, shown, place),
        0,
    )
}

// The same, answered as one number.
pub(crate) fn run<V: Scale, W: Way<V>>(
    bytes: &[u8],
    times: u32,
    values: &mut [V],
    choices: &mut [u16],
    shown: &mut [i32],
    place: &mut Figures,
) -> u64
    requires { length values.old ≡ 2304 }
    ensures many { 1 ≤ times → Told (run_tests V.Scale.rules W.rule bytes.now (length choices.old) (length shown.old)) result ((result ≡ 0) × Shows V.Scale.rules W.rule bytes.now place.new choices.new shown.new) ((place.new ≡ place.old) × (choices.new ≡ choices.old) × (shown.new ≡ shown.old)) }
    ensures never { times ≡ 0 → Told (file_tests V.Scale.rules bytes.now) result (result ≡ 0) (Unit {0}) × (place.new ≡ place.old) × (choices.new ≡ choices.old) × (shown.new ≡ shown.old) }
{
    match solve_file::<V, W>(bytes, times, values, choices, shown, place) {
        Ok(()) => 0,
        Err(fault) => told(fault),
    }
}
