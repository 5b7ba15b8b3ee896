// A sitting: at most one problem is open at a time.
ghost use Rattle.std.specs.Prelude.{◌≡◌};
ghost use Rattle.sittings.specs.Beginning.{Begun, Replaced};
ghost use Rattle.sittings.specs.Working.{Asked};
ghost use Rattle.sittings.specs.Writing.{Written};
ghost use Rattle.sittings.specs.declared.open.Open.TheVariants.{Nothing};

use crate::open::Open;
use crate::opening::{empty, opened};
use crate::reply::Reply;
use crate::request::Request;
use crate::working::work;
use crate::writing::write;

#[derive(Drop)]
pub struct Sitting {
    problem: Open,
}

impl Sitting {
    // No problem is open yet.
    pub fn new() -> Sitting
        ensures { result.problem ≡ Nothing }
    {
        Sitting {
            problem: Open::Nothing,
        }
    }

    // Opens an empty problem in the scale of a code; another code is declined and changes nothing.
    pub fn open(&mut self, code: usize) -> Reply
        ensures { Begun code self.old.problem result self.new.problem }
    {
        self.begin(code)
    }

    fn begin(&mut self, code: usize) -> Reply
        ensures { Begun code self.old.problem result self.new.problem }
    {
        match empty(code) {
            Ok(problem) => {
                self.problem = problem;
                Reply::Opened(code)
            }
            Err(fault) => Reply::Refused(fault.number()),
        }
    }

    // Opens the problem of a file; a declined file changes nothing.
    pub fn read(&mut self, bytes: &[u8]) -> Reply
        ensures { Replaced bytes.now self.old.problem result self.new.problem }
    {
        self.replace(bytes)
    }

    fn replace(&mut self, bytes: &[u8]) -> Reply
        ensures { Replaced bytes.now self.old.problem result self.new.problem }
    {
        match opened(bytes) {
            Ok(problem) => {
                self.problem = problem;
                Reply::FileRead(bytes.len())
            }
            Err(fault) => Reply::FileRefused(fault),
        }
    }

    // Writes the problem's file to the front of a buffer; with no problem open it is unknown.
    pub fn write(&self, out: &mut [u8]) -> Reply
        ensures { Written self.now.problem out.old result out.new }
    {
        write(&self.problem, out)
    }

    // What a request makes of the problem; with no problem open it is unknown.
    pub fn ask(&mut self, request: &Request) -> Reply
        ensures { Asked self.old.problem request.now result self.new.problem }
    {
        work(&mut self.problem, request)
    }
}
