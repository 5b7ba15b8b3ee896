// What a layout tells.
ghost use Rattle.std.specs.Prelude.{◌≡◌, ◌<◌, ◌≤◌, [], map, length, Decides, sum_by, MatchOption};
ghost use Rattle.theory.specs.Problem.{index};
ghost use Rattle.theory.specs.Sizes.{combinations, Known};
ghost use Rattle.layout.specs.Scopes.{listed, sizes_of, values_of, InDomains};
ghost use Rattle.layout.specs.View.{domains_of, scopes_of, words_in, scope_in, start_in};

use crate::layout::Layout;
use crate::scope::Scope;

// Whether the scopes agree in order.
fn same_scopes(ours: &[Scope], theirs: &[Scope]) -> bool
    ensures { Decides result (map listed ours.now ≡ map listed theirs.now) }
{
    ours.len() == theirs.len()
        && ours
            .iter()
            .zip(theirs)
            .all(|(one, other)| one.list() == other.list())
}

// How many places the scopes have together.
fn places(scopes: &[Scope]) -> usize
    requires { length scopes.now ≤ 64 }
    ensures { result ≡ sum_by length (map listed scopes.now) }
{
    scopes.iter().map(|scope| scope.list().len()).sum()
}

impl Layout {
    // The size of each variable's domain, in number order.
    pub fn domains(&self) -> &[u8]
        ensures { result.now ≡ domains_of self.now }
    {
        self.domains.as_slice()
    }

    // How many functions there are.
    pub fn functions(&self) -> usize
        ensures { result ≡ length (scopes_of self.now) }
    {
        self.scopes.len()
    }

    // The variables of a function by place; none where there is no such function.
    pub fn scope(&self, function: usize) -> &[u8]
        ensures list { result.now ≡ scope_in self.now function }
        ensures known { Known (length (domains_of self.now)) result.now }
        ensures few { length result.now ≤ 4 }
    {
        match self.found(function) {
            Some(scope) => scope.list(),
            None => &[],
        }
    }

    // The scope of a function; none where there is no such function.
    fn found(&self, function: usize) -> Option<&Scope>
        ensures { MatchOption result (scope_in self.now function ≡ []) (λ s. (listed s.now ≡ scope_in self.now function) × Known (length (domains_of self.now)) (listed s.now)) }
    {
        self.scopes().get(function)
    }

    // How many words all tables have together.
    pub fn words(&self) -> usize
        ensures { result ≡ words_in self.now }
    {
        self.starts[self.functions()]
    }

    // Where the table of a function begins among the words of all; past the last function, where its table ends.
    pub fn start(&self, function: usize) -> usize
        ensures { result ≡ start_in self.now function }
    {
        self.starts[function.min(self.functions())]
    }

    // How many links there are: one for each place of each function.
    pub fn links(&self) -> usize
        ensures { result ≡ sum_by length (scopes_of self.now) }
    {
        places(self.scopes())
    }

    // The scope of each function, in number order.
    fn scopes(&self) -> &[Scope]
        ensures scopes { map listed result.now ≡ scopes_of self.now }
        ensures few { length result.now ≤ 64 }
    {
        self.scopes.as_slice()
    }

    // Whether domains and scopes agree in order.
    pub fn same(&self, other: &Layout) -> bool
        ensures { Decides result ((domains_of self.now ≡ domains_of other.now) × (scopes_of self.now ≡ scopes_of other.now)) }
    {
        self.domains() == other.domains() && same_scopes(self.scopes(), other.scopes())
    }

    // Where the entry of a function at a plan stands in its table, the last place varying fastest.
    pub fn index(&self, function: usize, plan: [u8; 64]) -> usize
        ensures value { result ≡ index (sizes_of (domains_of self.now) (scope_in self.now function)) (values_of plan (scope_in self.now function)) }
        ensures inside { InDomains (domains_of self.now) (scope_in self.now function) plan → result < combinations (domains_of self.now) (scope_in self.now function) }
    {
        self.place(self.scope(function), plan)
    }

    fn place(&self, scope: &[u8], plan: [u8; 64]) -> usize
        requires few { length scope.now ≤ 4 }
        requires known { Known (length (domains_of self.now)) scope.now }
        ensures value { result ≡ index (sizes_of (domains_of self.now) scope.now) (values_of plan scope.now) }
        ensures inside { InDomains (domains_of self.now) scope.now plan → result < combinations (domains_of self.now) scope.now }
    {
        let domains = self.domains();
        let mut place = 0;
        for variable in scope {
            let size = domains[*variable as usize] as usize;
            place = place * size + plan[*variable as usize] as usize;
        }
        place
    }
}
