// A link: a place of a function.
ghost use Rattle.std.specs.Prelude.{◌≡◌, ◌<◌};
ghost use Rattle.theory.specs.Problem.{functions, arity};
ghost use Rattle.tables.specs.View.{problem_of};
ghost use Rattle.weights.specs.Swings.{values_at, stride_at};

use tables::Tables;

#[derive(Clone, Copy)]
pub(crate) struct Link<'a> {
    pub tables: &'a Tables,
    pub function: usize,
    pub place: usize,
    ghost known: { function < functions (problem_of tables.now) },
    ghost inside: { place < arity (problem_of tables.now) function },
}

impl<'a> Link<'a> {
    // How many values its variable has.
    pub(crate) fn values(self) -> usize
        ensures { result ≡ values_at (problem_of self.entry.tables.now) self.entry.function self.entry.place }
    {
        let scope = self.tables.layout.scope(self.function);
        let domains = self.tables.layout.domains();
        domains[scope[self.place] as usize] as usize
    }

    // How many combinations of values the later places have: the product of their sizes.
    pub(crate) fn stride(self) -> usize
        ensures { result ≡ stride_at (problem_of self.entry.tables.now) self.entry.function self.entry.place }
    {
        let scope = self.tables.layout.scope(self.function);
        let domains = self.tables.layout.domains();
        let mut stride = 1;
        for variable in &scope[self.place + 1..] {
            stride *= domains[*variable as usize] as usize;
        }
        stride
    }
}
