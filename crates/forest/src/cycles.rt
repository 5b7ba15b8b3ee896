// Whether links form a cycle: whether some link is left out as all are considered.
ghost use Rattle.std.specs.Prelude.{◌≡◌, Decides};
ghost use Rattle.theory.specs.Graphs.{Cycle, every};
ghost use Rattle.theory.specs.Kept.{kept_at};
ghost use Rattle.forest.specs.FactorGraph.{layout_graph};
ghost use Rattle.forest.specs.Along.{KeptByNumber};

use crate::ends::is_link;
use crate::keeping::keep_in_order;
use crate::links::{LINKS, Links};
use crate::listing::list_links;
use layout::{Layout, MOST_PLACES};

// The links that are kept in the order of their numbers.
fn kept_by_number(layout: &Layout) -> Links
    ensures { KeptByNumber (layout_graph layout.now) (kept_at result.words) }
{
    let mut room = [0; LINKS];
    let count = list_links(layout, &mut room);
    keep_in_order(layout, &room[..count])
}

// Whether these leave out some link, which then closes a cycle.
fn leaves_out(layout: &Layout, links: &Links) -> bool
    requires { KeptByNumber (layout_graph layout.now) (kept_at links.now.words) }
    ensures { Decides result (Cycle (layout_graph layout.now) every) }
{
    (0..MOST_PLACES * layout.functions()).any(|link| is_link(layout, link) && !links.holds(link))
}

// Whether the links of the layout form a cycle.
pub fn has_cycle(layout: &Layout) -> bool
    ensures { Decides result (Cycle (layout_graph layout.now) every) }
{
    leaves_out(layout, &kept_by_number(layout))
}
