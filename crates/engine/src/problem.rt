// What the open problem holds.
use crate::standing::Standing;
use tables::Tables;

mod acting;
mod calling;
mod carrying;
mod counting;
mod filing;
mod opening;

#[derive(Drop)]
pub struct Problem<V> {
    tables: Tables,
    // The report of the last accepted solve, unless a variable, a function or an entry came after it.
    standing: Option<Standing<V>>,
}
