// The links that are kept along a given order: each whose ends those kept before do not join.
ghost use Rattle.std.specs.Prelude.{◌≡◌, ℕ, ◌<◌, ◌≤◌, false, ◌||◌, IfSome, MatchOption, ◌==◌, slice_index_or};
ghost use Rattle.theory.specs.Kept.{kept_at};
ghost use Rattle.forest.specs.FactorGraph.{layout_graph, Leads};
ghost use Rattle.forest.specs.Along.{KeptAlong, SortedKeeps};
ghost use Rattle.forest.specs.Labelled.{label_in, relabel, Considered};

use crate::ends::{NODES, ends};
use crate::links::Links;
use layout::Layout;
use std::array;

// The links kept so far, and for each node the lowest node that they join it to.
#[derive(Clone, Copy)]
struct Parts {
    kept: Links,
    labels: [u8; NODES],
}

// The labels of nodes of which each is alone: their own numbers.
fn alone() -> [u8; NODES]
    ensures { (a : ℕ) → label_in result a ≡ a }
{
    array::from_fn(|node| node as u8)
}

// The label `low` in place of the label `high`.
fn relabel(low: u8, high: u8, label: u8) -> u8
    ensures { result ≡ relabel low high label }
{
    if label == high { low } else { label }
}

// The same of each label.
fn relabelled(mut labels: [u8; NODES], low: u8, high: u8) -> [u8; NODES]
    requires { high < 128 }
    ensures { (a : ℕ) → label_in result a ≡ relabel low high (label_in labels a) }
{
    // By index, in place: `map` would make another array, label by label.
    for a in 0..NODES {
        labels[a] = relabel(low, high, labels[a]);
    }
    labels
}

impl Parts {
    // Keeps a link between two parts.
    fn merge(&mut self, link: usize, low: u8, high: u8)
        requires link { link < 256 }
        requires high { high < 128 }
        ensures kept { (m : ℕ) → kept_at self.new.kept.words m ≡ (m == link || kept_at self.old.kept.words m) }
        ensures labels { (a : ℕ) → label_in self.new.labels a ≡ relabel low high (label_in self.old.labels a) }
    {
        self.kept.keep(link);
        self.labels = relabelled(self.labels, low, high);
    }

    // Keeps a link if its ends are in different parts.
    fn consider(&mut self, layout: &Layout, link: usize)
        requires { (a : ℕ) → label_in self.old.labels a ≤ a }
        ensures { Considered (layout_graph layout.now) link (kept_at self.old.kept.words) (kept_at self.new.kept.words) (label_in self.old.labels) (label_in self.new.labels) }
    {
        let Some((left, right)) = ends(layout, link) else {
            return;
        };
        let a = self.labels[left];
        let b = self.labels[right];
        if a != b {
            self.merge(link, a.min(b), a.max(b));
        }
    }
}

fn parts_along(layout: &Layout, order: &[usize]) -> Parts
    ensures { KeptAlong (layout_graph layout.now) order.now (kept_at result.kept.words) }
{
    let mut parts = Parts {
        kept: Links::none(),
        labels: alone(),
    };
    for link in order {
        parts.consider(layout, *link);
    }
    parts
}

// Goes along the order and keeps each link whose ends those kept before do not join. A number that is no link is passed over.
pub fn keep_in_order(layout: &Layout, order: &[usize]) -> Links
    ensures { KeptAlong (layout_graph layout.now) order.now (kept_at result.words) }
{
    parts_along(layout, order).kept
}

// Along the order of their weights, the links are kept that the rule keeps.
pub fn kept_by_rule<E>()
    ensures { SortedKeeps E }
{}
