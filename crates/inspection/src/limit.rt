// How much of an input is read.
ghost use Rattle.std.specs.Prelude.{◌≡◌};
ghost use Rattle.scale.specs.Levels.{capped, weakest};
ghost use Rattle.scale.specs.Points.{points};
ghost use Rattle.scale.specs.Ranks.{ranked};
ghost use Rattle.inspection.specs.Limit.{Suffices, TellsCode};

// How many bytes the longest file has.
pub(crate) const LONGEST: usize = 16784;

// One byte more than the longest file has.
fn past(longest: usize) -> usize
    requires { longest ≡ 16784 }
    ensures points { Suffices result points }
    ensures capped { Suffices result capped }
    ensures ranked { Suffices result ranked }
    ensures weakest { Suffices result weakest }
    ensures code { TellsCode result }
{
    longest + 1
}

// How many bytes of an input are enough to answer it: what is longer is declined by its header, whatever comes later.
pub fn most_read() -> usize
    ensures points { Suffices result points }
    ensures capped { Suffices result capped }
    ensures ranked { Suffices result ranked }
    ensures weakest { Suffices result weakest }
    ensures code { TellsCode result }
{
    past(LONGEST)
}
