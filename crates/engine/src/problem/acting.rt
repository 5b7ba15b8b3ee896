// What calls do to the problem and to its report.
ghost use Rattle.std.specs.Prelude.{◌≡◌, length, Some, None};
ghost use Rattle.theory.specs.Joins.{Highest};
ghost use Rattle.theory.specs.KeptBy.{straight, bounded};
ghost use Rattle.theory.specs.Problem.{Valid, variables, functions, score};
ghost use Rattle.theory.specs.Refusals.{Answered, Untouched};
ghost use Rattle.layout.specs.Numbers.{problem_number};
ghost use Rattle.tables.specs.View.{problem_of};
ghost use Rattle.rules.specs.Guarantees.{Guaranteed, GuaranteedLightest};
ghost use Rattle.rules.specs.Report.{Solved};
ghost use Rattle.calls.specs.State.{Call};
ghost use Rattle.calls.specs.Step.{unreported, reported, with_variable, with_function, with_word};
ghost use Rattle.calls.specs.Tests.{tests};
ghost use Rattle.solving.specs.Report.{figures_of, stores_of, Within};
ghost use Rattle.engine.specs.View.{standing_of, state_of};

use crate::problem::Problem;
use crate::standing::{Rule, Standing};
use editing::{add_function, add_variable, set_entry};
use layout::ProblemFault;
use scale::{Measuring, Scale};
use solving::{Report, bounded_solve, straight_solve};

impl<V: Scale> Problem<V> {
    // Lets no report stand.
    pub(crate) fn withdraw(&mut self)
        ensures tables { self.new.tables ≡ self.old.tables }
        ensures report { self.new.standing ≡ None }
    {
        self.standing = None;
    }

    // One more variable; no report stands then.
    pub(crate) fn grow(&mut self, size: usize) -> Result<usize, ProblemFault>
        ensures answer { Answered problem_number (tests V.Scale.rules (state_of V.Scale.means self.old) (Call.add_variable size)) (λ n. (n ≡ variables (problem_of self.old.tables)) × (state_of V.Scale.means self.new ≡ unreported (with_variable (problem_of self.old.tables) size))) result }
        ensures declined { Untouched result self.old self.new }
    {
        let number = add_variable(&mut self.tables, size)?;
        self.withdraw();
        Ok(number)
    }

    // One more function; no report stands then.
    pub(crate) fn attach(&mut self, scope: &[usize]) -> Result<usize, ProblemFault>
        ensures answer { Answered problem_number (tests V.Scale.rules (state_of V.Scale.means self.old) (Call.add_function scope.now)) (λ n. (n ≡ functions (problem_of self.old.tables)) × (state_of V.Scale.means self.new ≡ unreported (with_function (problem_of self.old.tables) scope.now V.Scale.rules.neutral_word))) result }
        ensures declined { Untouched result self.old self.new }
    {
        let number = add_function::<V>(&mut self.tables, scope)?;
        self.withdraw();
        Ok(number)
    }

    // Another word; no report stands then.
    pub(crate) fn store(
        &mut self,
        function: usize,
        index: usize,
        word: u32,
    ) -> Result<(), ProblemFault>
        ensures answer { Answered problem_number (tests V.Scale.rules (state_of V.Scale.means self.old) (Call.set_entry function index word)) (λ _. state_of V.Scale.means self.new ≡ unreported (with_word (problem_of self.old.tables) function index word)) result }
        ensures declined { Untouched result self.old self.new }
    {
        set_entry::<V>(&mut self.tables, function, index, word)?;
        self.withdraw();
        Ok(())
    }

    // The report with no link removed, which then stands.
    pub(crate) fn make_straight(
        &mut self,
        values: &mut [V],
        choices: &mut [u16],
        report: &mut Report<V>,
    ) -> Result<(), ProblemFault>
        ensures answer { Answered problem_number (tests V.Scale.rules (state_of V.Scale.means self.old) (Call.solve straight (length values.old) (length choices.old))) (λ _. Solved V.Scale.rules (problem_of self.old.tables) straight (figures_of V.Scale.means report.new) (stores_of V.Scale.means values.new choices.new) × Guaranteed V.Scale.rules (problem_of self.old.tables) straight (figures_of V.Scale.means report.new) × Highest V.Scale.rules (Valid (problem_of self.old.tables)) (score V.Scale.rules (problem_of self.old.tables)) (figures_of V.Scale.means report.new).tree × Within V.Scale.within report.new × (state_of V.Scale.means self.new ≡ reported (problem_of self.old.tables) straight (figures_of V.Scale.means report.new))) result }
        ensures declined { Untouched result self.old self.new }
        ensures report { Untouched result report.old report.new }
        ensures values { Untouched result values.old values.new }
        ensures choices { Untouched result choices.old choices.new }
    {
        straight_solve(&self.tables, values, choices, report)?;
        self.standing = Some(Standing {
            rule: Rule::Straight,
            report: *report,
        });
        Ok(())
    }

    // The report that stands.
    pub(crate) fn stands(&self) -> Result<Standing<V>, ProblemFault>
        ensures { Answered problem_number (tests V.Scale.rules (state_of V.Scale.means self.now) Call.report) (λ s. standing_of V.Scale.means (Some s) ≡ (state_of V.Scale.means self.now).report) result }
    {
        match self.standing {
            Some(standing) => Ok(standing),
            None => Err(ProblemFault::NoReport),
        }
    }
}

impl<V: Measuring> Problem<V> {
    // The report with the lightest links removed, which then stands.
    pub(crate) fn make_bounded(
        &mut self,
        values: &mut [V],
        choices: &mut [u16],
        report: &mut Report<V>,
    ) -> Result<(), ProblemFault>
        ensures answer { Answered problem_number (tests V.Scale.rules (state_of V.Scale.means self.old) (Call.solve bounded (length values.old) (length choices.old))) (λ _. Solved V.Scale.rules (problem_of self.old.tables) bounded (figures_of V.Scale.means report.new) (stores_of V.Scale.means values.new choices.new) × GuaranteedLightest V.Scale.rules (problem_of self.old.tables) bounded (figures_of V.Scale.means report.new) × Within V.Scale.within report.new × (state_of V.Scale.means self.new ≡ reported (problem_of self.old.tables) bounded (figures_of V.Scale.means report.new))) result }
        ensures declined { Untouched result self.old self.new }
        ensures report { Untouched result report.old report.new }
        ensures values { Untouched result values.old values.new }
        ensures choices { Untouched result choices.old choices.new }
    {
        bounded_solve(&self.tables, values, choices, report)?;
        self.standing = Some(Standing {
            rule: Rule::Bounded,
            report: *report,
        });
        Ok(())
    }
}
