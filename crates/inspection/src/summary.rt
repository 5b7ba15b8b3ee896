// What is told of an accepted file.
use std::fmt;

#[derive(Clone, Copy)]
pub struct Summary {
    pub scale: u16,
    pub variables: usize,
    pub functions: usize,
    pub entries: usize,
    pub links: usize,
    // How long the file is when it is written back, and whether that is the same file.
    pub bytes: usize,
    pub same: bool,
}

// Line by line, the last one without its line feed.
impl fmt::Display for Summary {
    fn fmt<W: fmt::Write>(&self, f: &mut fmt::Formatter<W>) -> fmt::Result {
        let same = if self.same { "yes" } else { "no" };
        write!(
            f,
            "accepted\nscale {}\nvariables {}\nfunctions {}\n",
            self.scale, self.variables, self.functions
        )?;
        write!(
            f,
            "entries {}\nlinks {}\nbytes {}\nsame {same}",
            self.entries, self.links, self.bytes
        )
    }
}
