// How many variables there are.
ghost use Rattle.std.specs.Prelude.{◌≡◌};
ghost use Rattle.theory.specs.Problem.{variables};
ghost use Rattle.engine.specs.View.{state_of};

use crate::problem::Problem;
use scale::Scale;

impl<V: Scale> Problem<V> {
    pub fn variables(&self) -> usize
        ensures { result ≡ variables (state_of V.Scale.means self.now).problem }
    {
        self.tables.layout.domains().len()
    }
}
