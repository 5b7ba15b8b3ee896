// The scale that a file is in, as its code tells it.
ghost use Rattle.inspection.specs.Kinds.{Decodes};

use file::{FileCause, FileFault};

#[derive(Clone, Copy)]
pub enum Kind {
    Points,
    Capped,
    Ranked,
    Weakest,
}

impl TryFrom<u16> for Kind {
    type Error = FileFault;

    ghost try_from_gives = { Decodes };

    fn try_from(code: u16) -> Result<Kind, FileFault> {
        match code {
            1 => Ok(Kind::Points),
            2 => Ok(Kind::Capped),
            3 => Ok(Kind::Ranked),
            4 => Ok(Kind::Weakest),
            _ => Err(FileFault {
                cause: FileCause::OtherScale,
                place: 0,
            }),
        }
    }
}
