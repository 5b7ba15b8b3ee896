// Which variable a kept link leads to, at which place of a function a variable stands, and which functions kept links join to it.
ghost use Rattle.std.specs.Prelude.{◌≡◌, ℕ, ◌==◌, MatchOption, position};
ghost use Rattle.theory.specs.Kept.{kept_at};
ghost use Rattle.layout.specs.View.{scope_in};
ghost use Rattle.hanging.specs.Kept.{Kept, LeadsTo};
ghost use Rattle.hanging.specs.Around.{Around};

use crate::function_set::FunctionSet;
use forest::{Links, variable_of};
use layout::{Layout, MOST_PLACES, MOST_VARIABLES};

// The variable of a kept link; none where the link is not kept, or there is no such link.
pub(crate) fn variable(layout: &Layout, kept: &Links, link: usize) -> Option<usize>
    ensures { MatchOption result (Kept layout.now (kept_at kept.now.words) link → ⊥) (LeadsTo layout.now (kept_at kept.now.words) link) }
{
    if !kept.holds(link) {
        return None;
    }
    variable_of(layout, link)
}

// The first place of the function whose variable is v; none where no place has it.
pub(crate) fn place_in(layout: &Layout, f: usize, v: usize) -> Option<usize>
    ensures { result ≡ position (λ (w : ℕ). w == v) (scope_in layout.now f) }
{
    layout.scope(f).iter().position(|w| *w as usize == v)
}

// For each variable the functions that kept links join to it.
pub(crate) fn functions_around(layout: &Layout, kept: &Links) -> [FunctionSet; MOST_VARIABLES]
    ensures { Around layout.now (kept_at kept.now.words) result }
{
    let mut around = [FunctionSet::none(); MOST_VARIABLES];
    // By number: the number is the link, and tells its function.
    for link in 0..MOST_PLACES * layout.functions() {
        if let Some(v) = variable(layout, kept, link) {
            around[v].insert(link / MOST_PLACES);
        }
    }
    around
}
