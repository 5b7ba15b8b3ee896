// Solving the problem of a file in the scale that a code names.
ghost use Rattle.std.specs.Prelude.{◌≡◌, ◌*◌, ◌^◌, ◌≤◌, length};
ghost use Rattle.scale.specs.Levels.{capped, weakest};
ghost use Rattle.scale.specs.Points.{points};
ghost use Rattle.scale.specs.Ranks.{ranked};
ghost use Rattle.theory.specs.KeptBy.{straight, bounded};
ghost use Rattle.file.specs.Tests.{file_tests};
ghost use Rattle.inspection.specs.Describing.{NoScale};
ghost use Rattle.ffi.specs.Answers.{Told};
ghost use Rattle.ffi.specs.Reports.{run_tests, Shows};

use crate::numbers::Figures;
use crate::solves::run;
use crate::telling::told;
use crate::ways::{Bounded, Straight};
use inspection::Kind;
use scale::{Capped, Points, Ranked, Scale, Weakest};
use solving::VALUE_CELLS;

// Reads a file in the scale of this code once, and solves its problem `times` times over: straight for code 4, bounded for the others. Fills the
// choice store, of 1,024 cells, and writes the figures to `place` and the two numbers of each cell of the value store to `shown`, which has 4,608.
// Answers 0, or as reading does; what is declined, or solved no time, is left as it was.
#[unsafe(no_mangle)]
pub extern "C" fn engine_solve(
    code: u16,
    bytes: &[u8],
    times: u32,
    choices: &mut [u16],
    shown: &mut [i32],
    place: &mut Figures,
) -> u64
    ensures points { code ≡ 1 → 1 ≤ times → Told (run_tests points bounded bytes.now (length choices.old) (length shown.old)) result ((result ≡ 0) × Shows points bounded bytes.now place.new choices.new shown.new) ((place.new ≡ place.old) × (choices.new ≡ choices.old) × (shown.new ≡ shown.old)) }
    ensures capped { code ≡ 2 → 1 ≤ times → Told (run_tests capped bounded bytes.now (length choices.old) (length shown.old)) result ((result ≡ 0) × Shows capped bounded bytes.now place.new choices.new shown.new) ((place.new ≡ place.old) × (choices.new ≡ choices.old) × (shown.new ≡ shown.old)) }
    ensures ranked { code ≡ 3 → 1 ≤ times → Told (run_tests ranked bounded bytes.now (length choices.old) (length shown.old)) result ((result ≡ 0) × Shows ranked bounded bytes.now place.new choices.new shown.new) ((place.new ≡ place.old) × (choices.new ≡ choices.old) × (shown.new ≡ shown.old)) }
    ensures weakest { code ≡ 4 → 1 ≤ times → Told (run_tests weakest straight bytes.now (length choices.old) (length shown.old)) result ((result ≡ 0) × Shows weakest straight bytes.now place.new choices.new shown.new) ((place.new ≡ place.old) × (choices.new ≡ choices.old) × (shown.new ≡ shown.old)) }
    ensures read_points { code ≡ 1 → times ≡ 0 → Told (file_tests points bytes.now) result (result ≡ 0) (Unit {0}) }
    ensures read_capped { code ≡ 2 → times ≡ 0 → Told (file_tests capped bytes.now) result (result ≡ 0) (Unit {0}) }
    ensures read_ranked { code ≡ 3 → times ≡ 0 → Told (file_tests ranked bytes.now) result (result ≡ 0) (Unit {0}) }
    ensures read_weakest { code ≡ 4 → times ≡ 0 → Told (file_tests weakest bytes.now) result (result ≡ 0) (Unit {0}) }
    ensures never { times ≡ 0 → (place.new ≡ place.old) × (choices.new ≡ choices.old) × (shown.new ≡ shown.old) }
    ensures other { NoScale code → (result ≡ 19 * 2 ^ 32) × (place.new ≡ place.old) × (choices.new ≡ choices.old) × (shown.new ≡ shown.old) }
{
    match Kind::try_from(code) {
        Ok(Kind::Points) => run::<Points, Bounded>(
            bytes,
            times,
            &mut [Points::neutral(); VALUE_CELLS],
            choices,
            shown,
            place,
        ),
        Ok(Kind::Capped) => run::<Capped, Bounded>(
            bytes,
            times,
            &mut [Capped::neutral(); VALUE_CELLS],
            choices,
            shown,
            place,
        ),
        Ok(Kind::Ranked) => run::<Ranked, Bounded>(
            bytes,
            times,
            &mut [Ranked::neutral(); VALUE_CELLS],
            choices,
            shown,
            place,
        ),
        Ok(Kind::Weakest) => run::<Weakest, Straight>(
            bytes,
            times,
            &mut [Weakest::neutral(); VALUE_CELLS],
            choices,
            shown,
            place,
        ),
        Err(fault) => told(fault),
    }
}
