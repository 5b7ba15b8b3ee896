// What is told of a problem: its report, and the number that a word with too many penalties is declined by.
ghost use Rattle.std.specs.Prelude.{IfOk};
ghost use Rattle.theory.specs.KeptBy.{bounded};
ghost use Rattle.rules.specs.Guarantees.{GuaranteedLightest};
ghost use Rattle.solving.specs.Report.{figures_of};
ghost use Rattle.engine.specs.View.{state_of};
ghost use Rattle.house.specs.Marks.{marks};

use crate::day::ROUNDS;
use engine::Problem;
use forest::LINKS;
use house::{Marks, word_of};
use layout::ProblemFault;
use scale::Scale;
use solving::{CHOICE_CELLS, Report, VALUE_CELLS};
use std::fmt;

#[derive(Clone, Copy)]
pub(crate) struct Sheet {
    // What a word with too many penalties is declined by; 0 if it is not.
    declined: u16,
    report: Report<Marks>,
}

// Solves a problem with the lightest links removed, over stores of its own.
fn solve(problem: &mut Problem<Marks>) -> Result<Report<Marks>, ProblemFault>
    ensures { IfOk result (λ r. GuaranteedLightest marks (state_of ⟦<Marks as Scale>⟧.means problem.new).problem bounded (figures_of ⟦<Marks as Scale>⟧.means r)) }
{
    let mut values = [Marks::neutral(); VALUE_CELLS];
    let mut choices = [0; CHOICE_CELLS];
    let mut report = Report::blank();
    problem.bounded_solve(&mut values, &mut choices, &mut report)?;
    Ok(report)
}

// No plan of the problem scores above the ceiling of the report that is told.
pub(crate) fn sheet_of(problem: &mut Problem<Marks>) -> Result<Sheet, ProblemFault>
    ensures { IfOk result (λ s. GuaranteedLightest marks (state_of ⟦<Marks as Scale>⟧.means problem.new).problem bounded (figures_of ⟦<Marks as Scale>⟧.means s.report)) }
{
    let declined = match problem.set_entry(0, 0, word_of(21, 0)) {
        Ok(()) => 0,
        Err(fault) => fault.number(),
    };
    let report = solve(problem)?;
    Ok(Sheet { declined, report })
}

// Line by line, the last one without its line feed.
impl fmt::Display for Sheet {
    fn fmt<W: fmt::Write>(&self, f: &mut fmt::Formatter<W>) -> fmt::Result {
        let report = &self.report;
        write!(f, "plan")?;
        for value in &report.plan[..ROUNDS.len()] {
            write!(f, " {value}")?;
        }
        write!(f, "\nkept")?;
        for link in (0..LINKS).filter(|link| report.kept.holds(*link)) {
            write!(f, " {link}")?;
        }
        write!(
            f,
            "\ntree {}\nscore {}\n",
            Shown(report.tree),
            Shown(report.score)
        )?;
        write!(
            f,
            "removed {}\nceiling {}\n",
            Shown(report.removed),
            Shown(report.ceiling)
        )?;
        write!(f, "share {}\ndeclined {}", report.share, self.declined)
    }
}

// Marks as they are read aloud.
#[derive(Clone, Copy)]
struct Shown(Marks);

impl fmt::Display for Shown {
    fn fmt<W: fmt::Write>(&self, f: &mut fmt::Formatter<W>) -> fmt::Result {
        let (tenths, penalties) = self.0.show();
        write!(
            f,
            "{}.{} marks, {penalties} penalties",
            tenths / 10,
            tenths % 10
        )
    }
}
