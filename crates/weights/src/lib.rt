// The weights of links.
#![tactic(auto)]

ghost use Rattle.std.specs.Prelude.{◌<◌};
ghost use Rattle.theory.specs.Cut.{Weighs};
ghost use Rattle.theory.specs.Problem.{functions, arity};
ghost use Rattle.tables.specs.View.{problem_of};

mod link;
mod swings;

use link::Link;
use scale::Measuring;
use tables::Tables;

// The weight of the link at a place of a function: over all values of the function's other variables, the widest gap between its highest and
// its lowest entry as the variable at the place varies.
pub fn weight<V: Measuring>(tables: &Tables, function: usize, place: usize) -> V
    requires function { function < functions (problem_of tables.now) }
    requires place { place < arity (problem_of tables.now) function }
    ensures value { Weighs V.Scale.rules (problem_of tables.now) function place (V.Scale.means result) }
    ensures within { V.Scale.within 2 result }
{
    let link = Link {
        tables,
        function,
        place,
    };
    link.weight::<V>(link.values(), link.stride())
}
