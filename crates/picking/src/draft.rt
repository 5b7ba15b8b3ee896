// A plan as it grows.
ghost use Rattle.std.specs.Prelude.{◌≡◌, ◌<◌, length, replicate, slice_set};
ghost use Rattle.rules.specs.Figures.{planned};
ghost use Rattle.picking.specs.Steps.{SmallPlan};

#[derive(Drop)]
pub(crate) struct Draft {
    values: [u8; 64],
    ghost small: { SmallPlan values },
}

impl Draft {
    // Each variable has the value 0.
    pub(crate) fn empty() -> Draft
        ensures { result.values ≡ replicate 64 0 }
    {
        Draft { values: [0; 64] }
    }

    pub(crate) fn value(&self, variable: usize) -> usize
        requires { variable < 64 }
        ensures { result ≡ planned self.now.values variable }
    {
        self.values[variable] as usize
    }

    // Gives the variable the value, and no other variable any.
    pub(crate) fn give(&mut self, variable: usize, value: usize)
        requires variable { variable < 64 }
        requires value { value < 16 }
        ensures { self.new.values ≡ slice_set self.old.values variable value }
    {
        self.values[variable] = value as u8;
    }

    // The values, by the numbers of their variables.
    pub(crate) fn plan(self) -> [u8; 64]
        ensures { result ≡ self.values }
    {
        self.values
    }
}
