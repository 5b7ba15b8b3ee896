// A sitting over standard input: one command a line, each answered by one line, or by the lines of a report.
#![tactic(auto)]

mod files;
mod lines;

use lines::{Next, next_line};
use sittings::{Command, Line, Reply, Sitting};
use std::io;
use std::io::BufReader;

// Does what a command says.
fn obey(rt: &HostRuntime, sitting: &mut Sitting, command: &Command) -> Reply {
    match command {
        Command::Open(code) => sitting.open(*code),
        Command::Read(path) => files::read(rt, sitting, path),
        Command::Write(path) => files::write(rt, sitting, path),
        Command::Ask(request) => sitting.ask(request),
    }
}

// Answers a line; text that is not UTF-8 is no command.
fn answer(rt: &HostRuntime, sitting: &mut Sitting, line: &[u8]) -> io::Result<()> {
    let Ok(text) = str::from_utf8(line) else {
        return println!(rt; "{}", Reply::Unknown);
    };
    match Line::parse(rt.alloc(), text)? {
        Line::Passed => Ok(()),
        Line::Command(command) => println!(rt; "{}", obey(rt, sitting, &command)),
        Line::Unknown => println!(rt; "{}", Reply::Unknown),
    }
}

fn main(rt: HostRuntime) -> io::Result<()> {
    let mut input = BufReader::new(rt.alloc(), rt.stdin())?;
    let mut line = Vec::new(rt.alloc());
    let mut sitting = Sitting::new();
    for _ in 0..u64::MAX {
        match next_line(&mut input, &mut line)? {
            Next::End => break,
            Next::Line => answer(&rt, &mut sitting, line.as_slice())?,
            Next::TooLong => println!(rt; "{}", Reply::TooLong)?,
        }
    }
    Ok(())
}
