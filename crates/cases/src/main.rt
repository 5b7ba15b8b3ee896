// Many problem files in one run: each is answered as `sheet` answers it.
#![tactic(auto)]

use case_lines::answer_all;
use sheets::sheet;
use std::io;

fn main(rt: HostRuntime) -> io::Result<()> {
    answer_all(&rt, |bytes| sheet(bytes))
}
