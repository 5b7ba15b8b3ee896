// The higher and the lower of two values.
ghost use Rattle.std.specs.Prelude.{◌≡◌, if◌then◌else◌};

use crate::Scale;

// The second value where it is at least as high, and else the first.
pub fn higher<V: Scale>(first: V, second: V) -> V
    ensures { result ≡ (if V.Scale.rules.leq (V.Scale.means first) (V.Scale.means second) then second else first) }
{
    if second.at_least(first) {
        second
    } else {
        first
    }
}

// The second value where it is at most as high, and else the first.
pub fn lower<V: Scale>(first: V, second: V) -> V
    ensures { result ≡ (if V.Scale.rules.leq (V.Scale.means second) (V.Scale.means first) then second else first) }
{
    if first.at_least(second) {
        second
    } else {
        first
    }
}
