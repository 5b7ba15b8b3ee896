// Writing tables out as a file.
ghost use Rattle.std.specs.Prelude.{◌≡◌, ℕ, ◌+◌, ◌*◌, ◌<◌, ◌≤◌, length, slice_index};
ghost use Rattle.theory.specs.Refusals.{Answered, Untouched};
ghost use Rattle.layout.specs.View.{scopes_of, scope_in};
ghost use Rattle.tables.specs.View.{problem_of};
ghost use Rattle.file.specs.Bytes.{half, word, part};
ghost use Rattle.file.specs.Numbers.{refusal};
ghost use Rattle.file.specs.Spelling.{scope_bytes, file_size};
ghost use Rattle.file.specs.Inner.{CountsOf};
ghost use Rattle.file.specs.Inner.{Written};
ghost use Rattle.file.specs.Writing.{WrittenAs, write_tests};

use crate::fault::{FileCause, FileFault};
use crate::places::{HEADER, Header, SCOPE, WORD};
use crate::scopes::UNUSED;
use layout::Layout;
use scale::Scale;
use tables::Tables;

// Copies bytes to a place.
fn put_bytes(out: &mut [u8], place: usize, bytes: &[u8])
    requires { place + length bytes.now ≤ length out.old }
    ensures written { Written out.old out.new place (place + length bytes.now) }
    ensures content { part out.new place (length bytes.now) ≡ bytes.now }
{
    out[place..place + bytes.len()].copy_from_slice(bytes);
}

// A scope in five bytes.
fn packed(scope: &[u8]) -> [u8; SCOPE]
    requires { length scope.now ≤ 4 }
    ensures { result ≡ scope_bytes scope.now }
{
    let size = scope.len();
    let mut bytes = [UNUSED; SCOPE];
    bytes[0] = size as u8;
    bytes[1..1 + size].copy_from_slice(scope);
    bytes
}

// The eight numbers of a header. Numbers, scopes and words have a loop each: a function for all three would take a closure that gives N bytes,
// and no proof covers one whose type names N.
fn put_numbers(out: &mut [u8], numbers: [u16; 8])
    requires { 16 ≤ length out.old }
    ensures written { Written out.old out.new 0 16 }
    ensures content { (j : ℕ) → j < 8 → half out.new (2 * j) ≡ slice_index numbers j }
{
    for (j, number) in numbers.iter().enumerate() {
        put_bytes(out, 2 * j, &number.to_le_bytes());
    }
}

// The scopes of a layout, from a place on.
fn put_scopes(out: &mut [u8], place: usize, layout: &Layout)
    requires low { place ≤ 80 }
    requires room { place + 5 * length (scopes_of layout.now) ≤ length out.old }
    ensures written { Written out.old out.new place (place + 5 * length (scopes_of layout.now)) }
    ensures content { (f : ℕ) → f < length (scopes_of layout.now) → part out.new (place + 5 * f) 5 ≡ scope_bytes (scope_in layout.now f) }
{
    // By number: a layout lends its scopes one at a time.
    for f in 0..layout.functions() {
        put_bytes(out, place + SCOPE * f, &packed(layout.scope(f)));
    }
}

// Words, from a place on.
fn put_words(out: &mut [u8], place: usize, words: &[u32])
    requires low { place ≤ 400 }
    requires room { place + 4 * length words.now ≤ length out.old }
    ensures written { Written out.old out.new place (place + 4 * length words.now) }
    ensures content { (k : ℕ) → k < length words.now → word out.new (place + 4 * k) ≡ slice_index words.now k }
{
    for (k, word) in words.iter().enumerate() {
        put_bytes(out, place + WORD * k, &word.to_le_bytes());
    }
}

// The counts of tables.
fn header_of(tables: &Tables) -> Header
    ensures { CountsOf (problem_of tables.now) result }
{
    Header {
        variables: tables.layout.domains().len(),
        functions: tables.layout.functions(),
        entries: tables.all_words().len(),
    }
}

// Spells the tables at the front of a buffer.
fn spell<V: Scale>(out: &mut [u8], tables: &Tables, header: Header)
    requires counts { CountsOf (problem_of tables.now) header }
    requires room { file_size (problem_of tables.now) ≤ length out.old }
    ensures { WrittenAs V.Scale.rules (problem_of tables.now) out.old out.new }
{
    let scopes = header.scopes_place();
    let entries = header.entries_place();
    let numbers = [
        V::code(),
        header.variables as u16,
        header.functions as u16,
        header.entries as u16,
        HEADER as u16,
        scopes as u16,
        entries as u16,
        header.file_length() as u16,
    ];
    put_numbers(out, numbers);
    put_bytes(out, HEADER, tables.layout.domains());
    put_scopes(out, scopes, &tables.layout);
    put_words(out, entries, tables.all_words());
}

// Writes the file of the tables to the front of a buffer and answers its length; a buffer that is too short is left as it was.
pub fn write<V: Scale>(tables: &Tables, out: &mut [u8]) -> Result<usize, FileFault>
    ensures answer { Answered refusal (write_tests (problem_of tables.now) out.old) (λ n. (n ≡ file_size (problem_of tables.now)) × WrittenAs V.Scale.rules (problem_of tables.now) out.old out.new) result }
    ensures declined { Untouched result out.old out.new }
{
    let header = header_of(tables);
    let length = header.file_length();
    if out.len() < length {
        return Err(FileCause::SmallBuffer.at(0));
    }
    spell::<V>(out, tables, header);
    Ok(length)
}
