// The place of a refused solve.
ghost use Rattle.std.specs.Prelude.{◌≡◌};
ghost use Rattle.file.specs.Numbers.{located};

use file::{FileFault, located};
use layout::ProblemFault;

// A refusal of the solve has place 0, since it belongs to no part of the file.
pub(crate) fn placed(res: Result<(), ProblemFault>) -> Result<(), FileFault>
    ensures { result ≡ located res 0 }
{
    located(res, 0)
}
