// The sheet of a file of any scale.
ghost use Rattle.std.specs.Prelude.{◌≡◌};
ghost use Rattle.scale.specs.Levels.{capped, weakest};
ghost use Rattle.scale.specs.Points.{points};
ghost use Rattle.scale.specs.Ranks.{ranked};
ghost use Rattle.theory.specs.KeptBy.{straight, bounded};
ghost use Rattle.theory.specs.Refusals.{Answered};
ghost use Rattle.file.specs.Bytes.{half};
ghost use Rattle.file.specs.Numbers.{refusal};
ghost use Rattle.inspection.specs.Describing.{NoScale, other_tests};
ghost use Rattle.sheets.specs.Shows.{sheet_tests, Shows};

use crate::printing::Sheet;
use crate::solving_bounded::bounded_sheet;
use crate::solving_straight::straight_sheet;
use file::FileFault;
use inspection::Kind;
use scale::{Capped, Points, Ranked, Scale, Weakest};
use solving::{CHOICE_CELLS, VALUE_CELLS};

// What a file's problem is solved to, in the scale that its code names. Only a scale that measures gaps can remove links.
pub fn sheet(bytes: &[u8]) -> Result<Sheet, FileFault>
    ensures points { half bytes.now 0 ≡ 1 → Answered refusal (sheet_tests points bounded bytes.now) (Shows points bounded bytes.now) result }
    ensures capped { half bytes.now 0 ≡ 2 → Answered refusal (sheet_tests capped bounded bytes.now) (Shows capped bounded bytes.now) result }
    ensures ranked { half bytes.now 0 ≡ 3 → Answered refusal (sheet_tests ranked bounded bytes.now) (Shows ranked bounded bytes.now) result }
    ensures weakest { half bytes.now 0 ≡ 4 → Answered refusal (sheet_tests weakest straight bytes.now) (Shows weakest straight bytes.now) result }
    ensures other { NoScale (half bytes.now 0) → Answered refusal (other_tests bytes.now) (λ _. ⊥) result }
{
    let mut choices = [0; CHOICE_CELLS];
    match Kind::try_from(file::scale_code(bytes)?)? {
        Kind::Points => bounded_sheet(bytes, &mut [Points::neutral(); VALUE_CELLS], &mut choices),
        Kind::Capped => bounded_sheet(bytes, &mut [Capped::neutral(); VALUE_CELLS], &mut choices),
        Kind::Ranked => bounded_sheet(bytes, &mut [Ranked::neutral(); VALUE_CELLS], &mut choices),
        Kind::Weakest => straight_sheet(
            bytes,
            &mut [Weakest::neutral(); VALUE_CELLS],
            &mut choices,
        ),
    }
}
