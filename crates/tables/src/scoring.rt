// The score of a plan.
ghost use Rattle.std.specs.Prelude.{◌≡◌, length, slice_index};
ghost use Rattle.theory.specs.Problem.{entry, score};
ghost use Rattle.layout.specs.View.{scopes_of};
ghost use Rattle.tables.specs.View.{problem_of};

use crate::tables::Tables;
use joining::joined;
use scale::Scale;

// The word at an index of a table; 0 outside it.
fn word_at(table: &[u32], index: usize) -> u32
    ensures { result ≡ slice_index table.now index }
{
    table.get(index).copied().unwrap_or(0)
}

// What a function gives at a plan.
fn entry_at<V: Scale>(tables: &Tables, function: usize, plan: [u8; 64]) -> V
    ensures exact { V.Scale.means result ≡ entry V.Scale.rules (problem_of tables.now) function (λ v. slice_index plan v) }
    ensures within { V.Scale.within 1 result }
{
    let index = tables.layout.index(function, plan);
    V::value_of(word_at(tables.table(function), index))
}

// What the functions give at a plan, joined in number order.
fn joined_entries<V: Scale>(tables: &Tables, functions: usize, plan: [u8; 64]) -> V
    requires { functions ≡ length (scopes_of tables.now.layout) }
    ensures exact { V.Scale.means result ≡ score V.Scale.rules (problem_of tables.now) (λ v. slice_index plan v) }
    ensures within { V.Scale.within 64 result }
{
    joined(
        functions,
        |function| Some(entry_at::<V>(tables, function, plan)),
    )
}

// What the functions give at a plan, joined in number order; neutral if there are none. At a value outside its domain an index may lie outside
// its table, and then gives what the word 0 reads as.
pub fn score<V: Scale>(tables: &Tables, plan: [u8; 64]) -> V
    ensures exact { V.Scale.means result ≡ score V.Scale.rules (problem_of tables.now) (λ v. slice_index plan v) }
    ensures within { V.Scale.within 64 result }
{
    joined_entries::<V>(tables, tables.layout.functions(), plan)
}
