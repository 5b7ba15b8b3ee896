// The kept links of a problem as a forest, with what each node hangs from. That all hang (`Rooted`) is asked of callers: it holds the nodes' ranks, and a ghost
// field may have one value at most.
use forest::Links;
use hanging::Hung;
use tables::Tables;

#[derive(Clone, Copy)]
pub struct RootedForest<'a> {
    pub tables: &'a Tables,
    pub kept: &'a Links,
    pub hung: &'a Hung,
}
