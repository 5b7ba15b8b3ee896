// The ceiling.
ghost use Rattle.figures.specs.Ceiling.{CeilingOf};

use scale::Scale;

fn joined<V: Scale>(tree: V, removed: V) -> V
    ensures { CeilingOf V.Scale.rules V.Scale.means V.Scale.within tree removed result }
{
    tree.join(removed)
}

// The ceiling: the tree value joined with the weight of the removed links.
pub fn ceiling<V: Scale>(tree: V, removed: V) -> V
    ensures { CeilingOf V.Scale.rules V.Scale.means V.Scale.within tree removed result }
{
    joined(tree, removed)
}
