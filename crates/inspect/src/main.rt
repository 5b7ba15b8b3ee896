// Tests the problem file on standard input: says what it holds and whether it is the same when written back, or why it is declined.
#![tactic(auto)]

use inspection::{inspect, most_read};
use std::io;
use std::io::Read;

fn main(rt: HostRuntime) -> io::Result<()> {
    let mut bytes = Vec::new(rt.alloc());
    rt.stdin().take(most_read() as u64).read_to_end(&mut bytes)?;
    match inspect(bytes.as_slice()) {
        Ok(summary) => println!(rt; "{summary}"),
        Err(fault) => println!(rt; "{fault}"),
    }
}
