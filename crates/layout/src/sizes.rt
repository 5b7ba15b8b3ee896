// The sizes that a problem stays within.
pub const MOST_VARIABLES: usize = 64;

pub const MOST_FUNCTIONS: usize = 64;
// All tables together.
pub const MOST_WORDS: usize = 4096;
// A variable's values, a function's places, and the words of one table.
pub const MOST_VALUES: usize = 16;

pub const MOST_PLACES: usize = 4;

pub const MOST_IN_TABLE: usize = 1024;
