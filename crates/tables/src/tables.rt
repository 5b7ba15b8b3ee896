// What the tables of a problem are held in.
ghost use Rattle.std.specs.Prelude.{◌≡◌, length};

use layout::{Layout, MOST_WORDS};

mod reading;

#[derive(Drop)]
pub struct Tables {
    pub layout: Layout,
    // The words of all tables, one table after the other in the order of the functions.
    pub words: [u32; MOST_WORDS],
    ghost room: { length words ≡ 4096 },
}
