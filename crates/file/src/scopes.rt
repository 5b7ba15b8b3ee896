// The domains and the scopes of a file.
ghost use Rattle.std.specs.Prelude.{◌≡◌, ◌/◌, [], ◌∷◌, ◌++◌, length, Decides};
ghost use Rattle.theory.specs.Refusals.{Answered, variable_tests, function_tests};
ghost use Rattle.layout.specs.View.{domains_of, scopes_of, words_in};
ghost use Rattle.file.specs.Numbers.{refusal};
ghost use Rattle.file.specs.Tests.{each, at_place, domain_tests, record_tests, scope_tests_at, scope_told, scopes_told, UnusedUsed};

use crate::fault::{FileCause, FileFault, located};
use crate::places::{HEADER, SCOPE};
use layout::Layout;

// What an unused place of a scope holds.
pub(crate) const UNUSED: u8 = 255;

// Adds the variable of a domain byte at a place.
fn read_domain(layout: &mut Layout, size: u8, place: usize) -> Result<(), FileFault>
    ensures { Answered refusal (at_place place (variable_tests (length (domains_of layout.old)) size)) (λ _. (domains_of layout.new ≡ domains_of layout.old ++ (size ∷ [])) × (scopes_of layout.new ≡ scopes_of layout.old)) result }
{
    located(layout.add_variable(size as usize), place)
}

// Adds the variables of a section of domains to a layout that has none.
pub(crate) fn read_domains(layout: &mut Layout, section: &[u8]) -> Result<(), FileFault>
    requires domains { domains_of layout.old ≡ [] }
    requires scopes { scopes_of layout.old ≡ [] }
    ensures { Answered refusal (each (length section.now) (domain_tests section.now)) (λ _. (domains_of layout.new ≡ section.now) × (scopes_of layout.new ≡ [])) result }
{
    for (v, size) in section.iter().enumerate() {
        read_domain(layout, *size, HEADER + v)?;
    }
    Ok(())
}

// Whether an unused place of a record is not 255.
fn uses_unused(bytes: &[u8; SCOPE]) -> bool
    ensures { Decides result (UnusedUsed bytes.now) }
{
    let size = bytes[0] as usize;
    bytes[1..].iter().skip(size).any(|byte| *byte != UNUSED)
}

// Adds the function of a record's scope. A fifth variable stands for any further ones: such a scope is too long.
fn add_scope(layout: &mut Layout, bytes: &[u8; SCOPE], place: usize) -> Result<(), FileFault>
    ensures { Answered refusal (at_place place (function_tests (domains_of layout.old) (length (scopes_of layout.old)) (words_in layout.old) (scope_told bytes.now))) (λ _. (domains_of layout.new ≡ domains_of layout.old) × (scopes_of layout.new ≡ scopes_of layout.old ++ (scope_told bytes.now ∷ []))) result }
{
    let [size, a, b, c, d] = *bytes;
    let variables = [a as usize, b as usize, c as usize, d as usize, 0];
    let size = (size as usize).min(5);
    located(layout.add_function(&variables[..size]), place)
}

// Adds the function of a record at a place.
fn read_scope(layout: &mut Layout, bytes: &[u8; SCOPE], place: usize) -> Result<(), FileFault>
    ensures { Answered refusal (record_tests (domains_of layout.old) (length (scopes_of layout.old)) (words_in layout.old) place bytes.now) (λ _. (domains_of layout.new ≡ domains_of layout.old) × (scopes_of layout.new ≡ scopes_of layout.old ++ (scope_told bytes.now ∷ []))) result }
{
    add_scope(layout, bytes, place)?;
    if uses_unused(bytes) {
        return Err(FileCause::UnusedPlace.at(place));
    }
    Ok(())
}

// Adds the functions of a section of scopes to a layout that has none.
pub(crate) fn read_scopes(layout: &mut Layout, section: &[u8]) -> Result<(), FileFault>
    requires { scopes_of layout.old ≡ [] }
    ensures { Answered refusal (each (length section.now / 5) (scope_tests_at (domains_of layout.old) section.now)) (λ _. (domains_of layout.new ≡ domains_of layout.old) × (scopes_of layout.new ≡ scopes_told section.now (length section.now / 5))) result }
{
    let place = HEADER + layout.domains().len();
    let (records, _) = section.as_chunks::<SCOPE>();
    for (f, bytes) in records.iter().enumerate() {
        read_scope(layout, bytes, place + SCOPE * f)?;
    }
    Ok(())
}
