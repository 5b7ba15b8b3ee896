// The ends of a link: a variable and a function.
ghost use Rattle.std.specs.Prelude.{◌≡◌, ◌/◌, ◌<◌, true, false, IfSome, MatchOption, slice_get};
ghost use Rattle.layout.specs.View.{scope_in};
ghost use Rattle.forest.specs.FactorGraph.{layout_graph, Leads};

use layout::{Layout, MOST_FUNCTIONS, MOST_PLACES, MOST_VARIABLES};

// The most variables and functions that there can be together.
pub const NODES: usize = MOST_VARIABLES + MOST_FUNCTIONS;

// The variable at a place of a function; none where there is no such place.
fn variable_at(layout: &Layout, function: usize, place: usize) -> Option<usize>
    ensures { result ≡ slice_get (scope_in layout.now function) place }
{
    layout.scope(function).get(place).map(|v| *v as usize)
}

// The variable of a link; none where there is no such link.
pub fn variable_of(layout: &Layout, link: usize) -> Option<usize>
    ensures { MatchOption result ((layout_graph layout.now).present link ≡ false) (λ v. ((layout_graph layout.now).present link ≡ true) × (v ≡ (layout_graph layout.now).left link)) }
{
    variable_at(layout, link / MOST_PLACES, link % MOST_PLACES)
}

// Whether there is a link of this number.
pub fn is_link(layout: &Layout, link: usize) -> bool
    ensures { result ≡ (layout_graph layout.now).present link }
{
    variable_of(layout, link).is_some()
}

// The variable and the function of a link, as nodes; none where there is no such link.
pub(crate) fn ends(layout: &Layout, link: usize) -> Option<(usize, usize)>
    ensures ends { MatchOption result ((layout_graph layout.now).present link ≡ false) (λ e. Leads (layout_graph layout.now) link e.0 e.1) }
    ensures within { IfSome result (λ e. (link < 256) × (e.0 < 128) × (e.1 < 128)) }
{
    variable_of(layout, link).map(|v| (v, layout.domains().len() + link / MOST_PLACES))
}
