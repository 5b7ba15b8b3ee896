// What is replied to a line.
use file::FileFault;
use sheets::{Sheet, Unheaded};
use std::fmt;

#[derive(Clone, Copy)]
pub enum Reply {
    // An empty problem is open, in the scale of this code.
    Opened(usize),
    // A file was read or written; its length.
    FileRead(usize),
    FileWritten(usize),
    // The number of what was added.
    VariableAdded(usize),
    FunctionAdded(usize),
    EntrySet { function: usize, index: usize },
    // A value as its first and second number.
    Weighed((i32, i32)),
    Scored((i32, i32)),
    Told(Sheet),
    // The number of a refusal; that of a file has a place.
    Refused(u16),
    FileRefused(FileFault),
    // The line is no command, or asks for what is not there to be asked.
    Unknown,
    // A file cannot be opened, or cannot be written.
    NoFile,
    TooLong,
}

// Without a line feed at the end.
impl fmt::Display for Reply {
    fn fmt<W: fmt::Write>(&self, f: &mut fmt::Formatter<W>) -> fmt::Result {
        match self {
            Reply::Opened(code) => write!(f, "open {code}"),
            Reply::FileRead(length) => write!(f, "read {length}"),
            Reply::FileWritten(length) => write!(f, "write {length}"),
            Reply::VariableAdded(number) => write!(f, "variable {number}"),
            Reply::FunctionAdded(number) => write!(f, "function {number}"),
            Reply::EntrySet { function, index } => write!(f, "set {function} {index}"),
            Reply::Weighed((first, second)) => write!(f, "weight {first} {second}"),
            Reply::Scored((first, second)) => write!(f, "score {first} {second}"),
            Reply::Told(sheet) => write!(f, "{}", Unheaded(sheet)),
            Reply::Refused(number) => write!(f, "refused {number}"),
            Reply::FileRefused(fault) => write!(f, "{fault}"),
            Reply::Unknown => write!(f, "unknown"),
            Reply::NoFile => write!(f, "no file"),
            Reply::TooLong => write!(f, "too long"),
        }
    }
}
