// Where the parts of a file begin, by how many variables, functions and entries it has.
ghost use Rattle.std.specs.Prelude.{◌≡◌, ◌≤◌};
ghost use Rattle.file.specs.Places.{scopes_place, entries_place, file_length};

// How long the header itself is, and so where the domains begin.
pub(crate) const HEADER: usize = 16;

// How many bytes a scope and a word have.
pub(crate) const SCOPE: usize = 5;

pub(crate) const WORD: usize = 4;

// The counts that a header tells.
#[derive(Clone, Copy)]
pub(crate) struct Header {
    pub variables: usize,
    pub functions: usize,
    pub entries: usize,
    ghost few: { (variables ≤ 64) × (functions ≤ 64) × (entries ≤ 4096) },
}

impl Header {
    // Where the scopes begin: behind a byte for each domain.
    pub(crate) fn scopes_place(self) -> usize
        ensures { result ≡ scopes_place self.variables }
    {
        HEADER + self.variables
    }

    // Where the entries begin: behind five bytes for each scope.
    pub(crate) fn entries_place(self) -> usize
        ensures { result ≡ entries_place self.variables self.functions }
    {
        self.scopes_place() + SCOPE * self.functions
    }

    // How long the file is: there are four bytes for each entry.
    pub(crate) fn file_length(self) -> usize
        ensures { result ≡ file_length self.variables self.functions self.entries }
    {
        self.entries_place() + WORD * self.entries
    }
}
