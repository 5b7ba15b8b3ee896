// The nodes hung so far, with what each hangs from, and the order in which they were hung.
use crate::node::{Function, Node, Variable};
use forest::NODES;
use layout::{MOST_FUNCTIONS, MOST_VARIABLES};
use short_list::ShortList;

mod hanging;
mod marking;
mod reading;

pub use hanging::hang;

#[derive(Clone, Copy)]
pub struct Hung {
    variables: [Variable; MOST_VARIABLES],
    functions: [Function; MOST_FUNCTIONS],
    order: ShortList<Node, NODES>,
}
