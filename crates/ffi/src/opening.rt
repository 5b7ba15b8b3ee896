// The problem of a file.
ghost use Rattle.theory.specs.Refusals.{Answered};
ghost use Rattle.file.specs.Numbers.{refusal};
ghost use Rattle.file.specs.Reading.{ReadAs};
ghost use Rattle.file.specs.Tests.{file_tests};
ghost use Rattle.engine.specs.View.{state_of};

use engine::Problem;
use file::FileFault;
use scale::Scale;

// The problem that the bytes spell.
pub(crate) fn opened<V: Scale>(bytes: &[u8]) -> Result<Problem<V>, FileFault>
    ensures { Answered refusal (file_tests V.Scale.rules bytes.now) (λ p. ReadAs V.Scale.rules bytes.now (state_of V.Scale.means p).problem) result }
{
    let mut problem = Problem::<V>::open();
    problem.read(bytes)?;
    Ok(problem)
}
