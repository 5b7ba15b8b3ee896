// The links that a layout has.
ghost use Rattle.std.specs.Prelude.{◌≡◌, ◌≤◌, take};
ghost use Rattle.forest.specs.FactorGraph.{layout_graph};
ghost use Rattle.forest.specs.Along.{Listed};

use crate::ends::is_link;
use crate::links::LINKS;
use layout::{Layout, MOST_PLACES};

// Writes the links among the numbers below `end`, which all links are.
fn list_below(layout: &Layout, room: &mut [usize; LINKS], end: usize) -> usize
    requires { end ≡ (layout_graph layout.now).links }
    ensures few { result ≤ 256 }
    ensures listed { Listed (layout_graph layout.now) (take result room.new) }
{
    let mut count = 0;
    for link in 0..end {
        if is_link(layout, link) {
            room[count] = link;
            count += 1;
        }
    }
    count
}

// Writes the numbers of the links into the front of the room, from the lowest, and tells how many there are.
pub fn list_links(layout: &Layout, room: &mut [usize; LINKS]) -> usize
    ensures few { result ≤ 256 }
    ensures listed { Listed (layout_graph layout.now) (take result room.new) }
{
    list_below(layout, room, MOST_PLACES * layout.functions())
}
