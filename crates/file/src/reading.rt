// Reading a file into tables.
ghost use Rattle.std.specs.Prelude.{◌≡◌, ◌/◌, ◌≤◌, [], length};
ghost use Rattle.theory.specs.Refusals.{Answered, NoneFits, Untouched};
ghost use Rattle.layout.specs.View.{domains_of, scopes_of};
ghost use Rattle.tables.specs.View.{problem_of};
ghost use Rattle.file.specs.Numbers.{refusal};
ghost use Rattle.file.specs.Tests.{header_tests, layout_tests, file_tests, scopes_told};
ghost use Rattle.file.specs.Inner.{FoundIn, Holds, Told};
ghost use Rattle.file.specs.Reading.{ReadAs};

use crate::entries::{load_words, test_words};
use crate::fault::{FileCause, FileFault};
use crate::places::Header;
use crate::scopes::{read_domains, read_scopes};
use crate::sections::{Sections, cut};
use layout::Layout;
use scale::Scale;
use tables::Tables;

// Makes an empty layout the one that the sections tell, whose tables have so many entries as the header tells.
fn read_layout(layout: &mut Layout, sections: Sections, entries: usize) -> Result<(), FileFault>
    requires domains { domains_of layout.old ≡ [] }
    requires scopes { scopes_of layout.old ≡ [] }
    ensures { Answered refusal (layout_tests sections.entry.domains.now sections.entry.scopes.now (length sections.entry.scopes.now / 5) entries) (λ _. (domains_of layout.new ≡ sections.entry.domains.now) × (scopes_of layout.new ≡ scopes_told sections.entry.scopes.now (length sections.entry.scopes.now / 5))) result }
{
    read_domains(layout, sections.domains)?;
    read_scopes(layout, sections.scopes)?;
    if entries != layout.words() {
        return Err(FileCause::EntryCount.at(6));
    }
    Ok(())
}

// Makes an empty layout the one that a file with this header holds, and answers the section of its entries, if it meets no test of the scale.
fn examine<'a, V: Scale>(
    layout: &mut Layout,
    bytes: &'a [u8],
    header: Header,
) -> Result<&'a [u8], FileFault>
    requires none { NoneFits (header_tests V.Scale.rules.code bytes.now) }
    requires told { Told bytes.now header }
    requires domains { domains_of layout.old ≡ [] }
    requires scopes { scopes_of layout.old ≡ [] }
    ensures { Answered refusal (file_tests V.Scale.rules bytes.now) (λ entries. FoundIn V.Scale.rules bytes.now layout.new entries.now) result }
{
    let sections = cut(bytes, header);
    read_layout(layout, sections, header.entries)?;
    test_words::<V>(sections.entries, header.entries_place())?;
    Ok(sections.entries)
}

// Puts what was found into tables.
fn store(tables: &mut Tables, layout: &Layout, entries: &[u8])
    requires { length entries.now ≤ 16384 }
    ensures { Holds tables.new layout.now entries.now }
{
    tables.layout = *layout;
    load_words(&mut tables.words, entries);
}

// Replaces the tables by those of an accepted file; a declined file leaves them as they were.
pub fn read<V: Scale>(bytes: &[u8], tables: &mut Tables) -> Result<(), FileFault>
    ensures answer { Answered refusal (file_tests V.Scale.rules bytes.now) (λ _. ReadAs V.Scale.rules bytes.now (problem_of tables.new)) result }
    ensures declined { Untouched result tables.old tables.new }
{
    // The header first: for a file that it declines no layout is made.
    let header = Header::read(bytes, V::code())?;
    // A draft, which the tables take on once the whole file is accepted.
    let mut layout = Layout::empty();
    let entries = examine::<V>(&mut layout, bytes, header)?;
    store(tables, &layout, entries);
    Ok(())
}
