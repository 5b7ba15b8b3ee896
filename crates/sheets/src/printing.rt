// What is told of a problem that was solved.
use std::fmt;

#[derive(Clone, Copy)]
pub struct Sheet {
    pub scale: u16,
    pub variables: usize,
    // The value of each variable; 0 past the last one.
    pub plan: [u8; 64],
    // How many links are kept.
    pub kept: u32,
    // Each value as its first and second number.
    pub tree: (i32, i32),
    pub score: (i32, i32),
    pub removed: (i32, i32),
    pub ceiling: (i32, i32),
    // The score in thousandths of the ceiling.
    pub share: u64,
}

// The values of the variables, one blank before each.
fn write_plan<W: fmt::Write>(sheet: &Sheet, f: &mut fmt::Formatter<W>) -> fmt::Result {
    for value in sheet.plan.iter().take(sheet.variables) {
        write!(f, " {value}")?;
    }
    Ok(())
}

// A sheet without its first line, which names the scale.
#[derive(Clone, Copy)]
pub struct Unheaded<'a>(pub &'a Sheet);

// Line by line, the last one without its line feed.
impl fmt::Display for Unheaded<'_> {
    fn fmt<W: fmt::Write>(&self, f: &mut fmt::Formatter<W>) -> fmt::Result {
        let sheet = self.0;
        let (tree, score) = (sheet.tree, sheet.score);
        let (removed, ceiling) = (sheet.removed, sheet.ceiling);
        write!(f, "plan")?;
        write_plan(sheet, f)?;
        write!(f, "\nkept {}\ntree {} {}\n", sheet.kept, tree.0, tree.1)?;
        write!(
            f,
            "score {} {}\nremoved {} {}\n",
            score.0, score.1, removed.0, removed.1
        )?;
        write!(
            f,
            "ceiling {} {}\nshare {}",
            ceiling.0, ceiling.1, sheet.share
        )
    }
}

impl fmt::Display for Sheet {
    fn fmt<W: fmt::Write>(&self, f: &mut fmt::Formatter<W>) -> fmt::Result {
        write!(f, "scale {}\n{}", self.scale, Unheaded(self))
    }
}
