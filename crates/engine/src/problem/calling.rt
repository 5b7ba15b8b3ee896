// The calls. Each is a step of the open problem and carries the promise over any list of calls.
ghost use Rattle.std.specs.Prelude.{◌≡◌, length, Decides, IfOk};
ghost use Rattle.theory.specs.Joins.{Highest};
ghost use Rattle.theory.specs.KeptBy.{straight, bounded};
ghost use Rattle.theory.specs.Problem.{Same, Valid, score};
ghost use Rattle.theory.specs.Refusals.{Untouched};
ghost use Rattle.rules.specs.Guarantees.{Guaranteed, GuaranteedLightest};
ghost use Rattle.calls.specs.Promise.{Carries};
ghost use Rattle.calls.specs.State.{Call, Answer};
ghost use Rattle.solving.specs.Report.{figures_of, stores_of, Within};
ghost use Rattle.engine.specs.Told.{Told};
ghost use Rattle.engine.specs.View.{state_of, answer_by};

use crate::problem::Problem;
use layout::ProblemFault;
use scale::{Measuring, Scale};
use solving::Report;
use tables::same;

impl<V: Scale> Problem<V> {
    // One more variable, with a domain of this size; answers its number. No report stands then.
    pub fn add_variable(&mut self, size: usize) -> Result<usize, ProblemFault>
        ensures carries { Carries V.Scale.rules (state_of V.Scale.means self.old) (Call.add_variable size) (answer_by Answer.number result) (state_of V.Scale.means self.new) }
        ensures declined { Untouched result self.old self.new }
    {
        self.carry_variable(size)
    }

    // One more function of this scope, whose table has the neutral word in each place; answers its number. No report stands then.
    pub fn add_function(&mut self, scope: &[usize]) -> Result<usize, ProblemFault>
        ensures carries { Carries V.Scale.rules (state_of V.Scale.means self.old) (Call.add_function scope.now) (answer_by Answer.number result) (state_of V.Scale.means self.new) }
        ensures declined { Untouched result self.old self.new }
    {
        self.carry_function(scope)
    }

    // Stores one word in the table of a function, and alters no other. No report stands then.
    pub fn set_entry(
        &mut self,
        function: usize,
        index: usize,
        word: u32,
    ) -> Result<(), ProblemFault>
        ensures carries { Carries V.Scale.rules (state_of V.Scale.means self.old) (Call.set_entry function index word) (answer_by (λ _. Answer.done) result) (state_of V.Scale.means self.new) }
        ensures declined { Untouched result self.old self.new }
    {
        self.carry_entry(function, index, word)
    }

    // Makes the report with no link removed, which then stands, and fills both stores. A problem whose links form a cycle is declined.
    pub fn straight_solve(
        &mut self,
        values: &mut [V],
        choices: &mut [u16],
        report: &mut Report<V>,
    ) -> Result<(), ProblemFault>
        ensures carries { Carries V.Scale.rules (state_of V.Scale.means self.old) (Call.solve straight (length values.old) (length choices.old)) (answer_by (λ _. Answer.solved (figures_of V.Scale.means report.new) (stores_of V.Scale.means values.new choices.new)) result) (state_of V.Scale.means self.new) }
        ensures guaranteed { IfOk result (λ _. Guaranteed V.Scale.rules (state_of V.Scale.means self.new).problem straight (figures_of V.Scale.means report.new) × Highest V.Scale.rules (Valid (state_of V.Scale.means self.new).problem) (score V.Scale.rules (state_of V.Scale.means self.new).problem) (figures_of V.Scale.means report.new).tree) }
        ensures within { IfOk result (λ _. Within V.Scale.within report.new) }
        ensures declined { Untouched result self.old self.new }
        ensures report { Untouched result report.old report.new }
        ensures values { Untouched result values.old values.new }
        ensures choices { Untouched result choices.old choices.new }
    {
        self.carry_straight(values, choices, report)
    }

    // Writes the report that stands into a place.
    pub fn report(&self, place: &mut Report<V>) -> Result<(), ProblemFault>
        ensures carries { Carries V.Scale.rules (state_of V.Scale.means self.now) Call.report (answer_by (λ _. Answer.told (figures_of V.Scale.means place.new)) result) (state_of V.Scale.means self.now) }
        ensures told { IfOk result (λ _. Told V.Scale.rules (state_of V.Scale.means self.now) (figures_of V.Scale.means place.new)) }
        ensures place { Untouched result place.old place.new }
    {
        self.carry_report(place)
    }

    // The score of the plan that a list of values is, one for each variable.
    pub fn score(&self, list: &[usize]) -> Result<V, ProblemFault>
        ensures carries { Carries V.Scale.rules (state_of V.Scale.means self.now) (Call.score list.now) (answer_by (λ x. Answer.value (V.Scale.means x)) result) (state_of V.Scale.means self.now) }
        ensures within { IfOk result (V.Scale.within 64) }
    {
        self.carry_score(list)
    }

    // Whether domain sizes, scopes and read entries agree in order.
    pub fn same(&self, other: &Problem<V>) -> bool
        ensures { Decides result (Same V.Scale.rules (state_of V.Scale.means self.now).problem (state_of V.Scale.means other.now).problem) }
    {
        same::<V>(&self.tables, &other.tables)
    }
}

impl<V: Measuring> Problem<V> {
    // Makes the report with the lightest links removed, which then stands, and fills both stores.
    pub fn bounded_solve(
        &mut self,
        values: &mut [V],
        choices: &mut [u16],
        report: &mut Report<V>,
    ) -> Result<(), ProblemFault>
        ensures carries { Carries V.Scale.rules (state_of V.Scale.means self.old) (Call.solve bounded (length values.old) (length choices.old)) (answer_by (λ _. Answer.solved (figures_of V.Scale.means report.new) (stores_of V.Scale.means values.new choices.new)) result) (state_of V.Scale.means self.new) }
        ensures guaranteed { IfOk result (λ _. GuaranteedLightest V.Scale.rules (state_of V.Scale.means self.new).problem bounded (figures_of V.Scale.means report.new)) }
        ensures within { IfOk result (λ _. Within V.Scale.within report.new) }
        ensures declined { Untouched result self.old self.new }
        ensures report { Untouched result report.old report.new }
        ensures values { Untouched result values.old values.new }
        ensures choices { Untouched result choices.old choices.new }
    {
        self.carry_bounded(values, choices, report)
    }

    // The weight of the link at a place of a function.
    pub fn weight(&self, function: usize, place: usize) -> Result<V, ProblemFault>
        ensures carries { Carries V.Scale.rules (state_of V.Scale.means self.now) (Call.weight function place) (answer_by (λ x. Answer.value (V.Scale.means x)) result) (state_of V.Scale.means self.now) }
        ensures within { IfOk result (V.Scale.within 2) }
    {
        self.carry_weight(function, place)
    }
}
