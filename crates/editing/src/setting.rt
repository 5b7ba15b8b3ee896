// One word of a table.
ghost use Rattle.std.specs.Prelude.{◌≡◌, ◌<◌, length};
ghost use Rattle.theory.specs.Problem.{functions};
ghost use Rattle.theory.specs.Refusals.{Answered, Untouched};
ghost use Rattle.layout.specs.Numbers.{problem_number};
ghost use Rattle.tables.specs.View.{problem_of, table_of};
ghost use Rattle.calls.specs.State.{Call};
ghost use Rattle.calls.specs.Step.{unreported, with_word};
ghost use Rattle.calls.specs.Tests.{tests};

use layout::ProblemFault;
use scale::Scale;
use tables::{Tables, check_word};

// The word, if the function has a place for it and it is an entry of the scale.
fn admitted<V: Scale>(
    tables: &Tables,
    function: usize,
    index: usize,
    word: u32,
) -> Result<u32, ProblemFault>
    ensures { Answered problem_number (tests V.Scale.rules (unreported (problem_of tables.now)) (Call.set_entry function index word)) (λ w. (w ≡ word) × (function < functions (problem_of tables.now)) × (index < length (table_of tables.now function))) result }
{
    if function >= tables.layout.functions() {
        return Err(ProblemFault::NoFunction);
    }
    if index >= tables.table(function).len() {
        return Err(ProblemFault::NoIndex);
    }
    check_word::<V>(word)
}

// Stores a word in the table of a function.
fn store(tables: &mut Tables, function: usize, index: usize, word: u32)
    requires function { function < functions (problem_of tables.old) }
    requires index { index < length (table_of tables.old function) }
    ensures { problem_of tables.new ≡ with_word (problem_of tables.old) function index word }
{
    let start = tables.layout.start(function);
    tables.words[start + index] = word;
}

// Sets the entry of a function at an index of its table.
pub fn set_entry<V: Scale>(
    tables: &mut Tables,
    function: usize,
    index: usize,
    word: u32,
) -> Result<(), ProblemFault>
    ensures answer { Answered problem_number (tests V.Scale.rules (unreported (problem_of tables.old)) (Call.set_entry function index word)) (λ _. problem_of tables.new ≡ with_word (problem_of tables.old) function index word) result }
    ensures declined { Untouched result tables.old tables.new }
{
    let entry = admitted::<V>(tables, function, index, word)?;
    store(tables, function, index, entry);
    Ok(())
}
