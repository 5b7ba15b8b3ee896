// The file of the problem that is open.
ghost use Rattle.sittings.specs.Writing.{Told, Written};

use crate::open::Open;
use crate::reply::Reply;
use file::FileFault;

// The reply to a file that was written.
fn told(file: Result<usize, FileFault>) -> Reply
    ensures { Told file result }
{
    match file {
        Ok(length) => Reply::FileWritten(length),
        Err(fault) => Reply::FileRefused(fault),
    }
}

// Writes the problem's file to the front of a buffer, in its scale.
pub(crate) fn write(problem: &Open, out: &mut [u8]) -> Reply
    ensures { Written problem.now out.old result out.new }
{
    match problem {
        Open::Nothing => Reply::Unknown,
        Open::Points(points) => told(points.write(out)),
        Open::Capped(capped) => told(capped.write(out)),
        Open::Ranked(ranked) => told(ranked.write(out)),
        Open::Weakest(weakest) => told(weakest.write(out)),
    }
}
