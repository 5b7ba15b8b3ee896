// Why a file is declined, and where.
ghost use Rattle.std.specs.Prelude.{◌≡◌};
ghost use Rattle.file.specs.Numbers.{file_number, located};

use layout::ProblemFault;
use std::fmt;

#[derive(Clone, Copy)]
pub enum FileCause {
    // Under 16 bytes.
    Short,
    // The code is not that of the scale.
    OtherScale,
    // More than 64 variables or functions, or more than 4,096 entries.
    TooMany,
    // An offset or the length is not what the counts give.
    Misplaced,
    // An unused place of a scope is not 255.
    UnusedPlace,
    // The number of entries is not the sum of the tables.
    EntryCount,
    // The buffer is too short to write into.
    SmallBuffer,
    // The problem declines a domain, a scope or a word.
    Problem(ProblemFault),
}

impl FileCause {
    // This cause, at a byte place.
    pub(crate) fn at(self, place: usize) -> FileFault
        ensures { result ≡ record { cause = self; place = place } }
    {
        FileFault { cause: self, place }
    }
}

// The place is that of the first bad header field, domain byte, scope record or word.
#[derive(Clone, Copy)]
pub struct FileFault {
    pub cause: FileCause,
    pub place: usize,
}

impl FileFault {
    // The number that a user reads; a refusal of the problem keeps its own.
    pub fn number(self) -> u16
        ensures { result ≡ file_number self }
    {
        match self.cause {
            FileCause::Short => 18,
            FileCause::OtherScale => 19,
            FileCause::TooMany => 20,
            FileCause::Misplaced => 21,
            FileCause::UnusedPlace => 22,
            FileCause::EntryCount => 23,
            FileCause::SmallBuffer => 24,
            FileCause::Problem(fault) => fault.number(),
        }
    }
}

// As a program tells it, without a line feed.
impl fmt::Display for FileFault {
    fn fmt<W: fmt::Write>(&self, f: &mut fmt::Formatter<W>) -> fmt::Result {
        let number = self.number();
        let place = self.place;
        write!(f, "refused {number} {place}")
    }
}

// A result of the problem, with the byte place that a refusal belongs to.
pub fn located<T>(res: Result<T, ProblemFault>, place: usize) -> Result<T, FileFault>
    ensures { result ≡ located res place }
{
    res.map_err(|fault| FileCause::Problem(fault).at(place))
}
