// The lines of an input, each up to a limit.
use std::io;
use std::io::{BufRead, Read};

// The longest line that is looked at, in bytes, a return at its end included and its line feed not.
const LONGEST: u64 = 4096;

pub(crate) enum Next {
    End,
    Line,
    TooLong,
}

// Reads the next line into a buffer, without its line end. What is too long is skipped.
pub(crate) fn next_line(input: &mut impl BufRead, line: &mut Vec<u8>) -> io::Result<Next> {
    line.clear();
    let count = input.by_ref().take(LONGEST + 1).read_until(b'\n', line)?;
    let ended = line.pop_if(|byte| *byte == b'\n').is_some();
    if !ended && count as u64 > LONGEST {
        input.skip_until(b'\n')?;
        return Ok(Next::TooLong);
    }
    let _ = line.pop_if(|byte| *byte == b'\r');
    Ok(if count == 0 { Next::End } else { Next::Line })
}
