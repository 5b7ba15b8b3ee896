// Reading the header, the first 16 bytes of a file: eight numbers of 16 bits.
ghost use Rattle.std.specs.Prelude.{◌≡◌, ℕ, ◌+◌, ◌<◌, ◌≤◌, length, slice_index};
ghost use Rattle.theory.specs.Refusals.{Answered};
ghost use Rattle.file.specs.Bytes.{half};
ghost use Rattle.file.specs.Numbers.{refusal};
ghost use Rattle.file.specs.Tests.{code_tests, count_tests, place_tests, header_tests};
ghost use Rattle.file.specs.Inner.{Counted, Told};

use crate::fault::{FileCause, FileFault};
use crate::places::{HEADER, Header};
use layout::{MOST_FUNCTIONS, MOST_VARIABLES, MOST_WORDS};

// The 16-bit number at a place, the low byte first.
fn half_at(bytes: &[u8], place: usize) -> usize
    requires { place + 2 ≤ length bytes.now }
    ensures value { result ≡ half bytes.now place }
    ensures bound { result < 65536 }
    ensures bytes { (k : ℕ) → slice_index bytes.now k < 256 }
{
    u16::from_le_bytes([bytes[place], bytes[place + 1]]) as usize
}

// The scale code that a file begins with.
pub fn scale_code(bytes: &[u8]) -> Result<u16, FileFault>
    ensures { Answered refusal (code_tests bytes.now) (λ code. code ≡ half bytes.now 0) result }
{
    if bytes.len() < HEADER {
        return Err(FileCause::Short.at(0));
    }
    Ok(half_at(bytes, 0) as u16)
}

// The counts of a file of the scale with this code.
fn read_counts(bytes: &[u8], code: u16) -> Result<Header, FileFault>
    ensures { Answered refusal (count_tests code bytes.now) (Counted bytes.now) result }
{
    if scale_code(bytes)? != code {
        return Err(FileCause::OtherScale.at(0));
    }
    let variables = half_at(bytes, 2);
    if variables > MOST_VARIABLES {
        return Err(FileCause::TooMany.at(2));
    }
    let functions = half_at(bytes, 4);
    if functions > MOST_FUNCTIONS {
        return Err(FileCause::TooMany.at(4));
    }
    let entries = half_at(bytes, 6);
    if entries > MOST_WORDS {
        return Err(FileCause::TooMany.at(6));
    }
    Ok(Header {
        variables,
        functions,
        entries,
    })
}

// Whether offsets, length field and true length are what the counts give.
fn check_places(bytes: &[u8], header: Header) -> Result<(), FileFault>
    requires { Counted bytes.now header }
    ensures { Answered refusal (place_tests bytes.now) (λ _. Told bytes.now header) result }
{
    let end = header.file_length();
    if half_at(bytes, 8) != HEADER {
        return Err(FileCause::Misplaced.at(8));
    }
    if half_at(bytes, 10) != header.scopes_place() {
        return Err(FileCause::Misplaced.at(10));
    }
    if half_at(bytes, 12) != header.entries_place() {
        return Err(FileCause::Misplaced.at(12));
    }
    if half_at(bytes, 14) != end || bytes.len() != end {
        return Err(FileCause::Misplaced.at(14));
    }
    Ok(())
}

impl Header {
    // The header of a file of the scale with this code.
    pub(crate) fn read(bytes: &[u8], code: u16) -> Result<Header, FileFault>
        ensures { Answered refusal (header_tests code bytes.now) (Told bytes.now) result }
    {
        let header = read_counts(bytes, code)?;
        check_places(bytes, header)?;
        Ok(header)
    }
}
