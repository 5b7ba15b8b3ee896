// What an open problem is asked.

#[derive(Drop)]
pub enum Request {
    // One more variable, with a domain of this size.
    Variable(usize),
    // One more function of this scope.
    Function(Vec<usize>),
    // A word in the table of a function.
    Set {
        function: usize,
        index: usize,
        word: u32,
    },
    // The weight of the link at a place of a function.
    Weight {
        function: usize,
        place: usize,
    },
    // The score of a list of values.
    Score(Vec<usize>),
    // The report with the lightest links removed, the one with no link removed, and the one that stands.
    Bounded,
    Straight,
    Report,
}
