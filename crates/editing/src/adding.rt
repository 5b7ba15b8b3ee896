// One more variable, or one more function.
ghost use Rattle.std.specs.Prelude.{◌≡◌, ℕ, ◌-◌, ◌≤◌, ◌++◌, length, take, drop, replicate};
ghost use Rattle.theory.specs.Problem.{variables, functions};
ghost use Rattle.theory.specs.Refusals.{Answered, Untouched, variable_tests, function_tests};
ghost use Rattle.theory.specs.Sizes.{all_words};
ghost use Rattle.layout.specs.Numbers.{problem_number};
ghost use Rattle.tables.specs.View.{problem_of};
ghost use Rattle.calls.specs.State.{Call};
ghost use Rattle.calls.specs.Step.{unreported, with_variable, with_function};
ghost use Rattle.calls.specs.Tests.{tests};

use layout::ProblemFault;
use scale::Scale;
use tables::Tables;

// Adds a variable to the layout; the words stay.
fn extend(tables: &mut Tables, size: usize) -> Result<(), ProblemFault>
    ensures answer { Answered problem_number (variable_tests (variables (problem_of tables.old)) size) (λ _. problem_of tables.new ≡ with_variable (problem_of tables.old) size) result }
    ensures declined { Untouched result tables.old tables.new }
{
    tables.layout.add_variable(size)?;
    Ok(())
}

// One more variable, with a domain of this size; answers its number.
pub fn add_variable(tables: &mut Tables, size: usize) -> Result<usize, ProblemFault>
    ensures answer { Answered problem_number (variable_tests (variables (problem_of tables.old)) size) (λ n. (n ≡ variables (problem_of tables.old)) × (problem_of tables.new ≡ with_variable (problem_of tables.old) size)) result }
    ensures declined { Untouched result tables.old tables.new }
{
    let number = tables.layout.domains().len();
    extend(tables, size)?;
    Ok(number)
}

// Writes a word into all places from one up to another.
fn fill(words: &mut [u32], from: usize, to: usize, word: u32)
    requires order { from ≤ to }
    requires room { to ≤ length words.old }
    ensures { words.new ≡ take from words.old ++ (replicate (to - from) word ++ drop to words.old) }
{
    words[from..to].fill(word);
}

// One more function, with this word in each entry of its table; answers its number.
fn append(tables: &mut Tables, scope: &[usize], word: u32) -> Result<usize, ProblemFault>
    ensures answer { Answered problem_number (function_tests (problem_of tables.old).domains (functions (problem_of tables.old)) (all_words (problem_of tables.old).tables) scope.now) (λ n. (n ≡ functions (problem_of tables.old)) × (problem_of tables.new ≡ with_function (problem_of tables.old) scope.now word)) result }
    ensures declined { Untouched result tables.old tables.new }
{
    let number = tables.layout.functions();
    let start = tables.layout.words();
    tables.layout.add_function(scope)?;
    let end = tables.layout.words();
    fill(&mut tables.words, start, end, word);
    Ok(number)
}

// One more function of this scope, with a table of neutral entries; answers its number.
pub fn add_function<V: Scale>(tables: &mut Tables, scope: &[usize]) -> Result<usize, ProblemFault>
    ensures answer { Answered problem_number (tests V.Scale.rules (unreported (problem_of tables.old)) (Call.add_function scope.now)) (λ n. (n ≡ functions (problem_of tables.old)) × (problem_of tables.new ≡ with_function (problem_of tables.old) scope.now V.Scale.rules.neutral_word)) result }
    ensures declined { Untouched result tables.old tables.new }
{
    append(tables, scope, V::neutral_word())
}
