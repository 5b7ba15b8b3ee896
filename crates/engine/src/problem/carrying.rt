// What each call does, as a step of the open problem that carries the promise.
ghost use Rattle.std.specs.Prelude.{◌≡◌, length, IfOk};
ghost use Rattle.theory.specs.Joins.{Highest};
ghost use Rattle.theory.specs.KeptBy.{straight, bounded};
ghost use Rattle.theory.specs.Problem.{Valid, score};
ghost use Rattle.theory.specs.Refusals.{Untouched};
ghost use Rattle.rules.specs.Guarantees.{Guaranteed, GuaranteedLightest};
ghost use Rattle.calls.specs.Promise.{Carries};
ghost use Rattle.calls.specs.State.{Call, Answer};
ghost use Rattle.solving.specs.Report.{figures_of, stores_of, Within};
ghost use Rattle.engine.specs.Told.{Told};
ghost use Rattle.engine.specs.View.{state_of, answer_by};

use crate::problem::Problem;
use editing::{score_of, weigh};
use layout::ProblemFault;
use scale::{Measuring, Scale};
use solving::Report;

impl<V: Scale> Problem<V> {
    pub(crate) fn carry_variable(&mut self, size: usize) -> Result<usize, ProblemFault>
        ensures carries { Carries V.Scale.rules (state_of V.Scale.means self.old) (Call.add_variable size) (answer_by Answer.number result) (state_of V.Scale.means self.new) }
        ensures declined { Untouched result self.old self.new }
    {
        self.grow(size)
    }

    pub(crate) fn carry_function(&mut self, scope: &[usize]) -> Result<usize, ProblemFault>
        ensures carries { Carries V.Scale.rules (state_of V.Scale.means self.old) (Call.add_function scope.now) (answer_by Answer.number result) (state_of V.Scale.means self.new) }
        ensures declined { Untouched result self.old self.new }
    {
        self.attach(scope)
    }

    pub(crate) fn carry_entry(
        &mut self,
        function: usize,
        index: usize,
        word: u32,
    ) -> Result<(), ProblemFault>
        ensures carries { Carries V.Scale.rules (state_of V.Scale.means self.old) (Call.set_entry function index word) (answer_by (λ _. Answer.done) result) (state_of V.Scale.means self.new) }
        ensures declined { Untouched result self.old self.new }
    {
        self.store(function, index, word)
    }

    pub(crate) fn carry_straight(
        &mut self,
        values: &mut [V],
        choices: &mut [u16],
        report: &mut Report<V>,
    ) -> Result<(), ProblemFault>
        ensures carries { Carries V.Scale.rules (state_of V.Scale.means self.old) (Call.solve straight (length values.old) (length choices.old)) (answer_by (λ _. Answer.solved (figures_of V.Scale.means report.new) (stores_of V.Scale.means values.new choices.new)) result) (state_of V.Scale.means self.new) }
        ensures guaranteed { IfOk result (λ _. Guaranteed V.Scale.rules (state_of V.Scale.means self.new).problem straight (figures_of V.Scale.means report.new) × Highest V.Scale.rules (Valid (state_of V.Scale.means self.new).problem) (score V.Scale.rules (state_of V.Scale.means self.new).problem) (figures_of V.Scale.means report.new).tree) }
        ensures within { IfOk result (λ _. Within V.Scale.within report.new) }
        ensures declined { Untouched result self.old self.new }
        ensures report { Untouched result report.old report.new }
        ensures values { Untouched result values.old values.new }
        ensures choices { Untouched result choices.old choices.new }
    {
        self.make_straight(values, choices, report)
    }

    pub(crate) fn carry_report(&self, place: &mut Report<V>) -> Result<(), ProblemFault>
        ensures carries { Carries V.Scale.rules (state_of V.Scale.means self.now) Call.report (answer_by (λ _. Answer.told (figures_of V.Scale.means place.new)) result) (state_of V.Scale.means self.now) }
        ensures told { IfOk result (λ _. Told V.Scale.rules (state_of V.Scale.means self.now) (figures_of V.Scale.means place.new)) }
        ensures place { Untouched result place.old place.new }
    {
        let standing = self.stands()?;
        *place = standing.report;
        Ok(())
    }

    pub(crate) fn carry_score(&self, list: &[usize]) -> Result<V, ProblemFault>
        ensures carries { Carries V.Scale.rules (state_of V.Scale.means self.now) (Call.score list.now) (answer_by (λ x. Answer.value (V.Scale.means x)) result) (state_of V.Scale.means self.now) }
        ensures within { IfOk result (V.Scale.within 64) }
    {
        score_of::<V>(&self.tables, list)
    }
}

impl<V: Measuring> Problem<V> {
    pub(crate) fn carry_bounded(
        &mut self,
        values: &mut [V],
        choices: &mut [u16],
        report: &mut Report<V>,
    ) -> Result<(), ProblemFault>
        ensures carries { Carries V.Scale.rules (state_of V.Scale.means self.old) (Call.solve bounded (length values.old) (length choices.old)) (answer_by (λ _. Answer.solved (figures_of V.Scale.means report.new) (stores_of V.Scale.means values.new choices.new)) result) (state_of V.Scale.means self.new) }
        ensures guaranteed { IfOk result (λ _. GuaranteedLightest V.Scale.rules (state_of V.Scale.means self.new).problem bounded (figures_of V.Scale.means report.new)) }
        ensures within { IfOk result (λ _. Within V.Scale.within report.new) }
        ensures declined { Untouched result self.old self.new }
        ensures report { Untouched result report.old report.new }
        ensures values { Untouched result values.old values.new }
        ensures choices { Untouched result choices.old choices.new }
    {
        self.make_bounded(values, choices, report)
    }

    pub(crate) fn carry_weight(&self, function: usize, place: usize) -> Result<V, ProblemFault>
        ensures carries { Carries V.Scale.rules (state_of V.Scale.means self.now) (Call.weight function place) (answer_by (λ x. Answer.value (V.Scale.means x)) result) (state_of V.Scale.means self.now) }
        ensures within { IfOk result (V.Scale.within 2) }
    {
        weigh(&self.tables, function, place)
    }
}
