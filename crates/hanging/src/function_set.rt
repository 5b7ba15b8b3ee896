// A set of functions, as the bits of a word.
ghost use Rattle.std.specs.Prelude.{◌≡◌, ℕ, ◌<◌, false, ◌||◌, ◌==◌, ◌≢◌, IfSome, MatchOption};
ghost use Rattle.hanging.specs.FunctionSet.{in_set, First};

#[derive(Clone, Copy)]
pub(crate) struct FunctionSet {
    word: u64,
}

impl FunctionSet {
    // No function.
    pub(crate) fn none() -> FunctionSet
        ensures { (f : ℕ) → in_set result f ≡ false }
    {
        FunctionSet { word: 0 }
    }

    // One function more.
    pub(crate) fn insert(&mut self, f: usize)
        requires { f < 64 }
        ensures { (g : ℕ) → in_set self.new g ≡ (g == f || in_set self.old g) }
    {
        self.word |= 1 << f;
    }

    // Takes out the first function of the set; none where the set is empty.
    pub(crate) fn take_first(&mut self) -> Option<usize>
        ensures { MatchOption result ((f : ℕ) → in_set self.old f ≡ false) (λ f. First self.old f self.new) }
    {
        if self.word == 0 {
            return None;
        }
        let first = self.word.trailing_zeros() as usize;
        self.word &= !(1 << first);
        Some(first)
    }
}
