// The weight of the removed links.
ghost use Rattle.std.specs.Prelude.{◌≡◌, ℕ, ◌*◌, ◌<◌, length, slice_index_or};
ghost use Rattle.theory.specs.Graphs.{outside, set_weight};
ghost use Rattle.theory.specs.Kept.{kept_at};
ghost use Rattle.theory.specs.Links.{graph};
ghost use Rattle.layout.specs.View.{scopes_of};
ghost use Rattle.tables.specs.View.{problem_of};
ghost use Rattle.keeping.specs.Weights.{weight_of};
ghost use Rattle.figures.specs.Removed.{is_removed, RemovedWeight};

use forest::{Links, is_link};
use joining::joined;
use layout::{Layout, MOST_PLACES};
use scale::Scale;
use tables::Tables;

// Whether there is a link of this number that is not kept.
fn is_removed(layout: &Layout, kept: &Links, link: usize) -> bool
    ensures { result ≡ is_removed layout.now kept.now.words link }
{
    is_link(layout, link) && !kept.holds(link)
}

// The weight of a removed link; nothing for a number of none.
fn removed_at<V: Scale>(tables: &Tables, kept: &Links, weights: &[V], link: usize) -> Option<V>
    requires { link < length weights.now }
    ensures { RemovedWeight tables.now.layout kept.now.words weights.now link result }
{
    if is_removed(&tables.layout, kept, link) {
        Some(weights[link])
    } else {
        None
    }
}

// The weights of the removed links among the numbers below `links`, joined in number order.
fn removed_below<V: Scale>(tables: &Tables, kept: &Links, weights: &[V], links: usize) -> V
    requires links { links ≡ 4 * length (scopes_of tables.now.layout) }
    requires long { length weights.now ≡ 256 }
    requires few { (n : ℕ) (d : V) → n < 256 → V.Scale.within 2 (slice_index_or weights.now n d) }
    ensures exact { V.Scale.means result ≡ set_weight V.Scale.rules (graph (problem_of tables.now)) (weight_of V.Scale.rules V.Scale.means weights.now) (outside (kept_at kept.now.words)) }
    ensures within { V.Scale.within 512 result }
{
    joined(links, |link| removed_at(tables, kept, weights, link))
}

// The weights of the links that are not kept, joined in number order; neutral if there are none.
pub fn removed_weight<V: Scale>(tables: &Tables, kept: &Links, weights: &[V]) -> V
    requires long { length weights.now ≡ 256 }
    requires few { (n : ℕ) (d : V) → n < 256 → V.Scale.within 2 (slice_index_or weights.now n d) }
    ensures exact { V.Scale.means result ≡ set_weight V.Scale.rules (graph (problem_of tables.now)) (weight_of V.Scale.rules V.Scale.means weights.now) (outside (kept_at kept.now.words)) }
    ensures within { V.Scale.within 512 result }
{
    let links = MOST_PLACES * tables.layout.functions();
    removed_below(tables, kept, weights, links)
}
