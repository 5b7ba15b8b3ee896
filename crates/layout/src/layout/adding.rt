// Adding a variable, or a function.
ghost use Rattle.std.specs.Prelude.{◌≡◌, ℕ, ◌+◌, ◌<◌, ◌≤◌, [], ◌∷◌, ◌++◌, length, MatchBool, slice_index};
ghost use Rattle.theory.specs.Refusals.{Answered, Untouched, variable_tests, scope_tests, function_tests};
ghost use Rattle.theory.specs.Sizes.{combinations, Known};
ghost use Rattle.layout.specs.Numbers.{problem_number};
ghost use Rattle.layout.specs.Scopes.{listed, NoneTwice};
ghost use Rattle.layout.specs.View.{domains_of, scopes_of, words_in};

use crate::fault::ProblemFault;
use crate::layout::Layout;
use crate::scope::Scope;
use crate::sizes::{
    MOST_FUNCTIONS, MOST_IN_TABLE, MOST_PLACES, MOST_VALUES, MOST_VARIABLES, MOST_WORDS,
};
use short_list::ShortList;

// Whether some variable of the scope is not among the first `count`.
fn has_unknown(scope: &[usize], count: usize) -> bool
    ensures { MatchBool result ((p : ℕ) × (p < length scope.now) × (count ≤ slice_index scope.now p)) (Known count scope.now) }
{
    scope.iter().any(|variable| *variable >= count)
}

// Whether some variable stands twice in the scope.
fn has_repeat(scope: &[usize]) -> bool
    ensures { MatchBool result ((p q : ℕ) × (p < q) × (q < length scope.now) × (slice_index scope.now p ≡ slice_index scope.now q)) (NoneTwice scope.now) }
{
    scope
        .iter()
        .enumerate()
        .any(|(place, variable)| scope[..place].contains(variable))
}

impl Layout {
    // No variable and no function.
    pub fn empty() -> Layout
        ensures domains { domains_of result ≡ [] }
        ensures scopes { scopes_of result ≡ [] }
    {
        Layout {
            domains: ShortList::empty(0),
            scopes: ShortList::empty(Scope::of(&[])),
            starts: [0; MOST_FUNCTIONS + 1],
        }
    }

    // Adds a variable, with a domain of this size.
    pub fn add_variable(&mut self, size: usize) -> Result<(), ProblemFault>
        ensures answer { Answered problem_number (variable_tests (length (domains_of self.old)) size) (λ _. (domains_of self.new ≡ domains_of self.old ++ (size ∷ [])) × (scopes_of self.new ≡ scopes_of self.old)) result }
        ensures declined { Untouched result self.old self.new }
    {
        if size < 1 || size > MOST_VALUES {
            return Err(ProblemFault::DomainSize);
        }
        if self.domains.len() >= MOST_VARIABLES {
            return Err(ProblemFault::ManyVariables);
        }
        self.push_variable(size);
        Ok(())
    }

    fn push_variable(&mut self, size: usize)
        requires room { length (domains_of self.old) < 64 }
        requires some { 1 ≤ size }
        requires small { size ≤ 16 }
        ensures domains { domains_of self.new ≡ domains_of self.old ++ (size ∷ []) }
        ensures scopes { scopes_of self.new ≡ scopes_of self.old }
    {
        self.domains.push(size as u8);
    }

    // A scope of known variables, none of them twice.
    fn scope_of(&self, scope: &[usize]) -> Result<Scope, ProblemFault>
        ensures { Answered problem_number (scope_tests (length (domains_of self.now)) scope.now) (λ s. listed s ≡ scope.now) result }
    {
        if scope.is_empty() || scope.len() > MOST_PLACES {
            return Err(ProblemFault::ScopeSize);
        }
        if has_unknown(scope, self.domains.len()) {
            return Err(ProblemFault::UnknownVariable);
        }
        if has_repeat(scope) {
            return Err(ProblemFault::RepeatedVariable);
        }
        Ok(Scope::of(scope))
    }

    // How many combinations of values the variables of the scope have.
    fn combinations(&self, scope: &[usize]) -> usize
        requires few { length scope.now ≤ 4 }
        requires known { Known (length (domains_of self.now)) scope.now }
        ensures value { result ≡ combinations (domains_of self.now) scope.now }
        ensures bound { result ≤ 65536 }
    {
        let domains = self.domains();
        scope
            .iter()
            .map(|variable| domains[*variable] as usize)
            .product()
    }

    // Adds a function of this scope.
    pub fn add_function(&mut self, scope: &[usize]) -> Result<(), ProblemFault>
        ensures answer { Answered problem_number (function_tests (domains_of self.old) (length (scopes_of self.old)) (words_in self.old) scope.now) (λ _. (domains_of self.new ≡ domains_of self.old) × (scopes_of self.new ≡ scopes_of self.old ++ (scope.now ∷ []))) result }
        ensures declined { Untouched result self.old self.new }
    {
        let places = self.scope_of(scope)?;
        if self.functions() >= MOST_FUNCTIONS {
            return Err(ProblemFault::ManyFunctions);
        }
        let table = self.combinations(scope);
        let end = self.words() + table;
        if table > MOST_IN_TABLE || end > MOST_WORDS {
            return Err(ProblemFault::TableSize);
        }
        self.push_function(places, end);
        Ok(())
    }

    fn push_function(&mut self, scope: Scope, end: usize)
        requires room { length (scopes_of self.old) < 64 }
        requires some { 1 ≤ length (listed scope) }
        requires known { Known (length (domains_of self.old)) (listed scope) }
        requires small { combinations (domains_of self.old) (listed scope) ≤ 1024 }
        requires end { end ≡ words_in self.old + combinations (domains_of self.old) (listed scope) }
        requires few { end ≤ 4096 }
        ensures domains { domains_of self.new ≡ domains_of self.old }
        ensures scopes { scopes_of self.new ≡ scopes_of self.old ++ (listed scope ∷ []) }
    {
        self.scopes.push(scope);
        self.starts[self.scopes.len()] = end;
    }
}
