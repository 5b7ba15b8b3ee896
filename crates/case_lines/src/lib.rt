// Many problem files in one run. A line that begins with '#' names a case and is repeated; any other line is a file in hexadecimal, and is
// answered.
#![tactic(auto)]

ghost use Rattle.std.specs.Prelude.{◌<◌};

use std::alloc::{AllocError, Global};
use std::io::{BufRead, BufReader};
use std::{fmt, io};

// The value of a hexadecimal digit; 0 for any other byte.
fn digit(byte: u8) -> u8
    ensures { result < 16 }
{
    match byte {
        b'0'..=b'9' => byte - b'0',
        b'a'..=b'f' => byte - b'a' + 10,
        _ => 0,
    }
}

// The bytes that pairs of hexadecimal digits stand for.
fn decoded(heap: Global, text: &[u8]) -> Result<Vec<u8>, AllocError> {
    let (pairs, _) = text.as_chunks::<2>();
    pairs
        .iter()
        .map(|[high, low]| digit(*high) * 16 + digit(*low))
        .collect(heap)
}

// Repeats the name of a case, or answers a file.
fn answer_line<R, T, E, F>(rt: &R, line: &str, answer: &F) -> io::Result<()>
where
    R: Print + AllocGlobal,
    T: fmt::Display + Copy,
    E: fmt::Display + Copy,
    F: Fn(&[u8]) -> Result<T, E>,
    requires { F.IsAlwaysCallable answer.now }
{
    if line.starts_with('#') {
        return println!(rt; "{line}");
    }
    let bytes = decoded(rt.alloc(), line.as_bytes())?;
    match answer(bytes.as_slice()) {
        Ok(told) => println!(rt; "{told}"),
        Err(fault) => println!(rt; "{fault}"),
    }
}

// Answers each line of the input.
pub fn answer_all<R, T, E, F>(rt: &R, answer: F) -> io::Result<()>
where
    R: Input + Print + AllocGlobal,
    T: fmt::Display + Copy,
    E: fmt::Display + Copy,
    F: Fn(&[u8]) -> Result<T, E>,
    requires { F.IsAlwaysCallable answer }
{
    for line in BufReader::new(rt.alloc(), rt.reader())?.lines(rt.alloc()) {
        answer_line(rt, line?.as_str(), &answer)?;
    }
    Ok(())
}
