ghost use Rattle.std.specs.Prelude.{◌≡◌, ◌+◌, ◌*◌, ◌<◌, length, slice_range, slice_set};
ghost use Rattle.circuits.specs.Grids.{spot, SameLoan};

use crate::grid::Grid;
use kinds::Kind;

// Rows and columns stay numbers with a clause: a checked index would be made anew at each use.
impl<T: Kind> Grid<'_, T> {
    // The cells of a row.
    pub(crate) fn row(&self, row: usize) -> &[T]
        requires { row < 2 * self.now.n }
        ensures { result.now ≡ slice_range self.now.cells.now (row * self.now.n) (row * self.now.n + self.now.n) }
    {
        let start = row * self.n;
        &self.cells[start..start + self.n]
    }

    fn place(&self, row: usize, column: usize) -> usize
        requires row_within { row < 2 * self.now.n }
        requires column_within { column < self.now.n }
        ensures place { result ≡ row * self.now.n + column }
        ensures within { result < length self.now.cells.now }
    {
        row * self.n + column
    }

    pub(crate) fn read(&self, row: usize, column: usize) -> T
        requires row_within { row < 2 * self.now.n }
        requires column_within { column < self.now.n }
        ensures { result ≡ spot T.Kind.ops self.now.n self.now.cells.now row column }
    {
        self.cells[self.place(row, column)]
    }

    pub(crate) fn write(&mut self, row: usize, column: usize, value: T)
        requires row_within { row < 2 * self.old.n }
        requires column_within { column < self.old.n }
        ensures loan { SameLoan self.old self.new }
        ensures written { self.new.cells.now ≡ slice_set self.old.cells.now (row * self.old.n + column) value }
    {
        let place = self.place(row, column);
        self.cells[place] = value;
    }

    // Joins a value into a cell.
    pub(crate) fn add(&mut self, row: usize, column: usize, value: T)
        requires row_within { row < 2 * self.old.n }
        requires column_within { column < self.old.n }
        ensures loan { SameLoan self.old self.new }
        ensures added { self.new.cells.now ≡ slice_set self.old.cells.now (row * self.old.n + column) (T.Kind.ops.join (spot T.Kind.ops self.old.n self.old.cells.now row column) value) }
    {
        let old = self.read(row, column);
        self.write(row, column, old.join(value));
    }
}
