// Whether two problems are the same.
ghost use Rattle.std.specs.Prelude.{◌≡◌, map, Decides};
ghost use Rattle.theory.specs.Problem.{Same};
ghost use Rattle.tables.specs.View.{problem_of};

use crate::tables::Tables;
use scale::Scale;

// Whether the words read as the same entries, in order.
fn same_entries<V: Scale>(ours: &[u32], theirs: &[u32]) -> bool
    ensures { Decides result (map V.Scale.rules.reads ours.now ≡ map V.Scale.rules.reads theirs.now) }
{
    ours.len() == theirs.len()
        && ours
            .iter()
            .zip(theirs)
            .all(|(one, other)| same_entry::<V>(*one, *other))
}

// Values of which each is at least as high as the other are equal.
fn same_entry<V: Scale>(ours: u32, theirs: u32) -> bool
    ensures { Decides result (V.Scale.rules.reads ours ≡ V.Scale.rules.reads theirs) }
{
    let a = V::value_of(ours);
    let b = V::value_of(theirs);
    a.at_least(b) && b.at_least(a)
}

// Whether domain sizes, scopes and read entries agree in order.
pub fn same<V: Scale>(ours: &Tables, theirs: &Tables) -> bool
    ensures { Decides result (Same V.Scale.rules (problem_of ours.now) (problem_of theirs.now)) }
{
    same_shape(ours, theirs) && same_entries::<V>(ours.all_words(), theirs.all_words())
}

// Whether domain sizes and scopes agree in order.
fn same_shape(ours: &Tables, theirs: &Tables) -> bool
    ensures { Decides result (((problem_of ours.now).domains ≡ (problem_of theirs.now).domains) × (map (λ f. f.scope) (problem_of ours.now).tables ≡ map (λ f. f.scope) (problem_of theirs.now).tables)) }
{
    ours.layout.same(&theirs.layout)
}
