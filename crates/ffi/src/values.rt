// A value store as numbers.
ghost use Rattle.std.specs.Prelude.{◌≡◌, ◌*◌, length, map};
ghost use Rattle.ffi.specs.Reports.{TellsCells};

use scale::Scale;

// Writes the two numbers of each cell of a value store, side by side.
pub(crate) fn show_values<V: Scale>(values: &[V], shown: &mut [i32])
    requires { length shown.old ≡ 2 * length values.now }
    ensures { TellsCells V.Scale.rules (map V.Scale.means values.now) shown.new }
{
    for (n, value) in values.iter().enumerate() {
        let (first, second) = value.show();
        shown[2 * n] = first;
        shown[2 * n + 1] = second;
    }
}
