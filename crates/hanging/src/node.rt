// What is known of each node as the forest is hung.
#[derive(Clone, Copy)]
pub struct Variable {
    // A root is hung and has no parent, so the parent alone does not tell.
    pub hung: bool,
    // The function that it hangs from; a root hangs from none.
    pub parent: Option<usize>,
}

#[derive(Clone, Copy)]
pub struct Function {
    // The place by which it hangs from the variable there; none until it hangs.
    pub parent: Option<usize>,
}

// A variable or a function, by its number.
#[derive(Clone, Copy)]
pub enum Node {
    Variable(usize),
    Function(usize),
}
