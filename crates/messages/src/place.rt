// What a function's messages see of its places.
ghost use Rattle.std.specs.Prelude.{◌≡◌, cond};

// What is known of a place of a function as its messages are made. The variable and the size are bytes, as in a layout, so that the places of a
// function are copied in a step or two.
#[derive(Clone, Copy)]
pub struct Place {
    pub variable: u8,
    // How many values the variable has.
    pub size: u8,
    // Whether the link at the place is kept.
    pub kept: bool,
    // Whether the variable hangs from the function.
    pub below: bool,
}

impl Place {
    // How many of its values stand in the cut table: all, or 0 alone where the link is removed.
    pub(crate) fn counted(&self) -> usize
        ensures { result ≡ cond self.now.kept self.now.size 1 }
    {
        if self.kept { self.size as usize } else { 1 }
    }
}
