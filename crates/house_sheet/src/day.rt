// A day of three groups, each of which takes one of two or three rounds. Groups that meet bring marks, and clashes bring penalties.
use engine::Problem;
use house::{Marks, word_of};
use layout::ProblemFault;

// How many rounds each group has to choose from.
pub(crate) const ROUNDS: [usize; 3] = [2, 3, 2];

// One more pair of groups, with the penalties and halves of each two rounds, the last group's round running fastest.
fn add_pair(
    problem: &mut Problem<Marks>,
    groups: &[usize],
    entries: &[(u16, u16)],
) -> Result<(), ProblemFault> {
    let pair = problem.add_function(groups)?;
    for (index, &(penalties, halves)) in entries.iter().enumerate() {
        problem.set_entry(pair, index, word_of(penalties, halves))?;
    }
    Ok(())
}

pub(crate) fn day() -> Result<Problem<Marks>, ProblemFault> {
    let mut problem = Problem::open();
    for rounds in ROUNDS {
        problem.add_variable(rounds)?;
    }
    add_pair(
        &mut problem,
        &[0, 1],
        &[(0, 7), (1, 40), (0, 15), (0, 12), (0, 9), (2, 60)],
    )?;
    add_pair(
        &mut problem,
        &[1, 2],
        &[(0, 21), (0, 4), (1, 33), (0, 18), (0, 11), (0, 26)],
    )?;
    add_pair(&mut problem, &[2, 0], &[(0, 8), (0, 13), (0, 19), (0, 25)])?;
    Ok(problem)
}
