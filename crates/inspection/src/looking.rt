// Reading a file, and writing it back.
ghost use Rattle.std.specs.Prelude.{◌≡◌};
ghost use Rattle.scale.specs.Levels.{capped, weakest};
ghost use Rattle.scale.specs.Points.{points};
ghost use Rattle.scale.specs.Ranks.{ranked};
ghost use Rattle.theory.specs.Refusals.{Answered};
ghost use Rattle.file.specs.Bytes.{half};
ghost use Rattle.file.specs.Numbers.{refusal};
ghost use Rattle.file.specs.Tests.{file_tests};
ghost use Rattle.inspection.specs.Describing.{Describes, NoScale, other_tests};

use crate::kind::Kind;
use crate::limit::LONGEST;
use crate::summary::Summary;
use file::FileFault;
use scale::{Capped, Points, Ranked, Scale, Weakest};
use tables::Tables;

// What a file of one scale holds, and whether writing it back gives the same file.
fn look<V: Scale>(bytes: &[u8]) -> Result<Summary, FileFault>
    ensures { Answered refusal (file_tests V.Scale.rules bytes.now) (Describes V.Scale.rules.code bytes.now) result }
{
    let mut tables = Tables::empty();
    file::read::<V>(bytes, &mut tables)?;
    let mut copy = [0; LONGEST];
    let written = file::write::<V>(&tables, &mut copy)?;
    Ok(Summary {
        scale: V::code(),
        variables: tables.layout.domains().len(),
        functions: tables.layout.functions(),
        entries: tables.all_words().len(),
        links: tables.layout.links(),
        bytes: written,
        same: &copy[..written] == bytes,
    })
}

// What a file holds, in the scale that its code names.
pub fn inspect(bytes: &[u8]) -> Result<Summary, FileFault>
    ensures points { half bytes.now 0 ≡ 1 → Answered refusal (file_tests points bytes.now) (Describes 1 bytes.now) result }
    ensures capped { half bytes.now 0 ≡ 2 → Answered refusal (file_tests capped bytes.now) (Describes 2 bytes.now) result }
    ensures ranked { half bytes.now 0 ≡ 3 → Answered refusal (file_tests ranked bytes.now) (Describes 3 bytes.now) result }
    ensures weakest { half bytes.now 0 ≡ 4 → Answered refusal (file_tests weakest bytes.now) (Describes 4 bytes.now) result }
    ensures other { NoScale (half bytes.now 0) → Answered refusal (other_tests bytes.now) (λ _. ⊥) result }
{
    match Kind::try_from(file::scale_code(bytes)?)? {
        Kind::Points => look::<Points>(bytes),
        Kind::Capped => look::<Capped>(bytes),
        Kind::Ranked => look::<Ranked>(bytes),
        Kind::Weakest => look::<Weakest>(bytes),
    }
}
