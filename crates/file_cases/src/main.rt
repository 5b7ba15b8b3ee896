// Many problem files in one run: each is answered as `inspect` answers it.
#![tactic(auto)]

use case_lines::answer_all;
use inspection::inspect;
use std::io;

fn main(rt: HostRuntime) -> io::Result<()> {
    answer_all(&rt, |bytes| inspect(bytes))
}
