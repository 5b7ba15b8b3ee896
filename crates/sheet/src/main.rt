// Solves the problem file on standard input: prints its sheet, or why it has none.
#![tactic(auto)]

use inspection::most_read;
use sheets::sheet;
use std::io;
use std::io::Read;

fn main(rt: HostRuntime) -> io::Result<()> {
    let mut bytes = Vec::new(rt.alloc());
    rt.stdin().take(most_read() as u64).read_to_end(&mut bytes)?;
    match sheet(bytes.as_slice()) {
        Ok(sheet) => println!(rt; "{sheet}"),
        Err(fault) => println!(rt; "{fault}"),
    }
}
