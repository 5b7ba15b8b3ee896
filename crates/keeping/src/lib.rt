// Links of a layout, kept by their weights.
#![tactic(auto)]

ghost use Rattle.theory.specs.Kept.{kept_at};
ghost use Rattle.forest.specs.FactorGraph.{layout_graph};
ghost use Rattle.keeping.specs.KeptByWeight.{KeptByWeight};
ghost use Rattle.keeping.specs.Weights.{weight_of};

use crate::order::sort_by_weight;
use forest::{LINKS, Links, keep_in_order, list_links};
use layout::Layout;
use scale::Scale;

mod order;

// The links that are kept along the order of the weights.
fn kept_along<V: Scale>(layout: &Layout, weights: &[V]) -> Links
    ensures { KeptByWeight V.Scale.rules (layout_graph layout.now) (weight_of V.Scale.rules V.Scale.means weights.now) (kept_at result.words) }
{
    let mut room = [0; LINKS];
    let count = list_links(layout, &mut room);
    let links = &mut room[..count];
    sort_by_weight(weights, links);
    keep_in_order(layout, links)
}

// Considers the links from the heaviest, the lowest number first among equals, and keeps each that closes no cycle with those kept.
// A link for which no weight is given weighs the neutral value.
pub fn keep_by_weight<V: Scale>(layout: &Layout, weights: &[V]) -> Links
    ensures { KeptByWeight V.Scale.rules (layout_graph layout.now) (weight_of V.Scale.rules V.Scale.means weights.now) (kept_at result.words) }
{
    kept_along(layout, weights)
}
