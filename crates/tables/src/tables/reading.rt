// What tables hold.
ghost use Rattle.std.specs.Prelude.{◌≡◌, ◌+◌, ◌<◌, length};
ghost use Rattle.theory.specs.Problem.{no_problem, words_in_order};
ghost use Rattle.theory.specs.Sizes.{Fits};
ghost use Rattle.layout.specs.View.{scopes_of, words_in, start_in};
ghost use Rattle.tables.specs.View.{problem_of, table_of};

use crate::tables::Tables;
use layout::{Layout, MOST_WORDS};

impl Tables {
    // No variable and no function.
    pub fn empty() -> Tables
        ensures { problem_of result ≡ no_problem }
    {
        Tables {
            layout: Layout::empty(),
            words: [0; MOST_WORDS],
        }
    }

    // The words of all tables, one table after the other. Tables are always within the sizes of a problem.
    pub fn all_words(&self) -> &[u32]
        ensures words { result.now ≡ words_in_order (problem_of self.now) }
        ensures fits { Fits (problem_of self.now) }
    {
        self.first_words(self.layout.words())
    }

    fn first_words(&self, count: usize) -> &[u32]
        requires { count ≡ words_in self.now.layout }
        ensures words { result.now ≡ words_in_order (problem_of self.now) }
        ensures fits { Fits (problem_of self.now) }
    {
        &self.words[..count]
    }

    // The words of the table of a function; none where there is no such function.
    pub fn table(&self, function: usize) -> &[u32]
        ensures { result.now ≡ table_of self.now function }
    {
        if function < self.layout.functions() {
            self.between(
                function,
                self.layout.start(function),
                self.layout.start(function + 1),
            )
        } else {
            &[]
        }
    }

    // The words of a table by where it begins and where the next one does.
    fn between(&self, function: usize, start: usize, end: usize) -> &[u32]
        requires known { function < length (scopes_of self.now.layout) }
        requires start { start ≡ start_in self.now.layout function }
        requires end { end ≡ start_in self.now.layout (function + 1) }
        ensures { result.now ≡ table_of self.now function }
    {
        &self.words[start..end]
    }
}
