// A board: a lent slice of cells in rows of 16. It serves every kind of cell.
#![tactic(auto)]

ghost use Rattle.std.specs.Prelude.{◌≡◌, ℕ, ◌+◌, ◌*◌, ◌/◌, ◌<◌, ◌≤◌, length, take, drop, replicate, slice_index_or, slice_set};

// How many cells a row has.
pub const ROW: usize = 16;

#[derive(Drop)]
pub struct Board<'a, T> {
    cells: &'a mut [T],
    rows: usize,
    ghost whole: { 16 * rows ≤ length cells.now },
}

impl<'a, T: Copy> Board<'a, T> {
    ghost use Rattle.board.specs.SameLent.{SameLent};

    // A board over the cells that are lent, with as many rows as they fill.
    pub fn over(cells: &'a mut [T]) -> Board<'a, T>
        ensures same { result.cells.now ≡ cells.old }
        ensures rows { result.rows ≡ length cells.old / 16 }
        ensures lent { result.cells.ghost_name ≡ cells.entry.ghost_name }
    {
        let rows = cells.len() / ROW;
        Board { cells, rows }
    }

    // What the cell holds.
    pub fn get(&self, row: usize, cell: usize) -> T
        requires row { row < self.now.rows }
        requires cell { cell < 16 }
        ensures { (d : T) → result ≡ slice_index_or self.now.cells.now (16 * row + cell) d }
    {
        let cells = &*self.cells;
        cells[ROW * row + cell]
    }

    // The cells of so many rows, from the row `first` on.
    pub fn part(&self, first: usize, rows: usize) -> &[T]
        requires { first + rows ≤ self.now.rows }
        ensures { result.now ≡ take (16 * rows) (drop (16 * first) self.now.cells.now) }
    {
        let cells = &*self.cells;
        &cells[ROW * first..ROW * (first + rows)]
    }

    // Writes that cell, and no other.
    pub fn put(&mut self, row: usize, cell: usize, value: T)
        requires row { row < self.old.rows }
        requires cell { cell < 16 }
        ensures after { self.new.cells.now ≡ slice_set self.old.cells.now (16 * row + cell) value }
        ensures same { SameLent self.old self.new }
    {
        self.cells[ROW * row + cell] = value;
    }

    fn fill(&mut self, value: T)
        ensures after { self.new.cells.now ≡ replicate (length self.old.cells.now) value }
        ensures same { SameLent self.old self.new }
    {
        // Not `fill`, which asks that cloning the value cannot fail: of a T that is only `Copy` nothing says so.
        self.cells.fill_with(|| value);
    }

    // Writes the value into each cell.
    pub fn clear(&mut self, value: T)
        ensures after { self.new.cells.now ≡ replicate (length self.old.cells.now) value }
        ensures same { SameLent self.old self.new }
    {
        self.fill(value);
    }
}
