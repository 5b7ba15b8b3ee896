// A problem to begin with: an empty one, or that of a file.
ghost use Rattle.std.specs.Prelude.{MatchResult};
ghost use Rattle.theory.specs.Refusals.{Answered};
ghost use Rattle.calls.specs.Step.{Begins};
ghost use Rattle.file.specs.Numbers.{refusal};
ghost use Rattle.file.specs.Reading.{ReadAs};
ghost use Rattle.file.specs.Tests.{file_tests};
ghost use Rattle.inspection.specs.Kinds.{Decodes};
ghost use Rattle.engine.specs.View.{state_of};
ghost use Rattle.sittings.specs.Opening.{Empties, Opens};

use crate::open::Open;
use engine::Problem;
use file::{FileCause, FileFault};
use inspection::Kind;
use scale::Scale;

// The scale of a code.
fn kind_of(code: usize) -> Result<Kind, FileFault>
    ensures { Decodes code result }
{
    match u16::try_from(code) {
        Ok(code) => Kind::try_from(code),
        Err(_) => Err(FileFault {
            cause: FileCause::OtherScale,
            place: 0,
        }),
    }
}

// An empty problem in the scale of a code.
pub(crate) fn empty(code: usize) -> Result<Open, FileFault>
    ensures { Empties code result }
{
    Ok(match kind_of(code)? {
        Kind::Points => Open::Points(Problem::open()),
        Kind::Capped => Open::Capped(Problem::open()),
        Kind::Ranked => Open::Ranked(Problem::open()),
        Kind::Weakest => Open::Weakest(Problem::open()),
    })
}

// The problem of a file of one scale.
fn filed<V: Scale>(bytes: &[u8]) -> Result<Problem<V>, FileFault>
    ensures { Answered refusal (file_tests V.Scale.rules bytes.now) (λ p. ReadAs V.Scale.rules bytes.now (state_of V.Scale.means p).problem × Begins V.Scale.rules (state_of V.Scale.means p)) result }
{
    let mut problem = Problem::<V>::open();
    problem.read(bytes)?;
    Ok(problem)
}

// The problem of a file, in the scale that its code names.
pub(crate) fn opened(bytes: &[u8]) -> Result<Open, FileFault>
    ensures { Opens bytes.now result }
{
    Ok(match Kind::try_from(file::scale_code(bytes)?)? {
        Kind::Points => Open::Points(filed(bytes)?),
        Kind::Capped => Open::Capped(filed(bytes)?),
        Kind::Ranked => Open::Ranked(filed(bytes)?),
        Kind::Weakest => Open::Weakest(filed(bytes)?),
    })
}
