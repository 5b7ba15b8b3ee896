// Numbers from 0 to 1,000, which Capped and Weakest both count in. A number above 1,000 counts as 1,000.
ghost use Rattle.std.specs.Prelude.{◌≡◌, min, is_ok, nat_le};
ghost use Rattle.scale.specs.Levels.{level, level_leq, level_shown};

use crate::ScaleFault;

pub(crate) const TOP: u32 = 1000;

pub(crate) fn cut(value: u32) -> u32
    ensures { result ≡ min value 1000 }
{
    value.min(TOP)
}

// Declines a word above 1,000.
pub(crate) fn test(word: u32) -> Result<(), ScaleFault>
    ensures { is_ok result ≡ nat_le word 1000 }
{
    if word <= TOP {
        Ok(())
    } else {
        Err(ScaleFault::NoEntry)
    }
}

pub(crate) fn at_least(a: u32, b: u32) -> bool
    ensures { result ≡ level_leq (level b) (level a) }
{
    // (where a is above 1,000, b cut is no higher than it either)
    cut(b) <= a
}

pub(crate) fn show(value: u32) -> (i32, i32)
    ensures { result ≡ level_shown (level value) }
{
    (cut(value) as i32, 0)
}
