// The sections of a file, each a part of the file's own bytes.
ghost use Rattle.std.specs.Prelude.{◌≡◌, ◌*◌, length};
ghost use Rattle.file.specs.Tests.{domains_part, scopes_part, entries_part};
ghost use Rattle.file.specs.Inner.{Told};

use crate::places::{HEADER, Header};

#[derive(Clone, Copy)]
pub(crate) struct Sections<'a> {
    pub domains: &'a [u8],
    pub scopes: &'a [u8],
    pub entries: &'a [u8],
}

// Cuts the bytes into the sections that follow a header.
pub(crate) fn cut<'a>(bytes: &'a [u8], header: Header) -> Sections<'a>
    requires { Told bytes.now header }
    ensures domains { result.domains.now ≡ domains_part bytes.now }
    ensures scopes { result.scopes.now ≡ scopes_part bytes.now }
    ensures entries { result.entries.now ≡ entries_part bytes.now }
    ensures lengths { (length result.domains.now ≡ header.variables) × (length result.scopes.now ≡ 5 * header.functions) × (length result.entries.now ≡ 4 * header.entries) }
{
    let scopes = header.scopes_place();
    let entries = header.entries_place();
    Sections {
        domains: &bytes[HEADER..scopes],
        scopes: &bytes[scopes..entries],
        entries: &bytes[entries..],
    }
}
