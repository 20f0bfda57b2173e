ghost use Rattle.std.specs.Prelude.{◌≡◌, ℕ, ◌+◌, ◌-◌, ◌*◌, ◌<◌};
ghost use Rattle.plants.specs.Meaning.{joins};
ghost use Rattle.walks.specs.Walks.{arc};
ghost use Rattle.circuits.specs.Grids.{spot, Beyond, SameLoan, Kept, Tabled};

use crate::grid::Grid;
use kinds::Kind;
use links::Link;
use plants::fill;

impl<T: Kind> Grid<'_, T> {
    // Fills the first n rows with the joined values of the tokenless places, by their ends.
    pub(crate) fn load(&mut self, links: &[Link<T>])
        ensures loan { SameLoan self.old self.new }
        ensures loaded { (a b : ℕ) → a < self.old.n → b < self.old.n → spot T.Kind.ops self.old.n self.new.cells.now a b ≡ arc T.Kind.ops self.old.n links.now a b }
        ensures beyond { Beyond T.Kind.ops (self.old.n * self.old.n) self.old.cells.now self.new.cells.now }
    {
        let n = self.n;
        fill(self.cells, 0, n * n, T::bottom());
        for link in links {
            if link.is_tokenless(n) {
                self.add(usize::from(link.from), usize::from(link.to), link.value);
            }
        }
    }

    // The join, over the columns, of the products of two rows.
    fn dot(&self, row: usize, other: usize) -> T
        requires row_within { row < 2 * self.now.n }
        requires other_within { other < 2 * self.now.n }
        ensures { result ≡ joins T.Kind.ops self.now.n (λ x. T.Kind.ops.product (spot T.Kind.ops self.now.n self.now.cells.now row x) (spot T.Kind.ops self.now.n self.now.cells.now other x)) }
    {
        let pairs = self.row(row).iter().zip(self.row(other));
        pairs.fold(T::bottom(), |sum, (a, b)| sum.join(a.product(*b)))
    }

    // Fills a row with the first n rows times the row before it.
    fn advance(&mut self, row: usize)
        requires after { self.old.n < row }
        requires row_within { row < 2 * self.old.n }
        ensures stepped { (t : ℕ) → t < self.old.n → spot T.Kind.ops self.old.n self.new.cells.now row t ≡ joins T.Kind.ops self.old.n (λ x. T.Kind.ops.product (spot T.Kind.ops self.old.n self.old.cells.now t x) (spot T.Kind.ops self.old.n self.old.cells.now (row - 1) x)) }
        ensures kept { Kept T.Kind.ops row self.old self.new }
    {
        let n = self.n;
        // By number: a loop over its cells would split the grid, and cut the rows that it reads
        // by hand.
        for t in 0..n {
            let value = self.dot(t, row - 1);
            self.write(row, t, value);
        }
    }

    // Copies column b of the first n rows into row n.
    fn turn(&mut self, b: usize)
        requires { b < self.old.n }
        ensures copied { (t : ℕ) → t < self.old.n → spot T.Kind.ops self.old.n self.new.cells.now self.old.n t ≡ spot T.Kind.ops self.old.n self.old.cells.now t b }
        ensures kept { Kept T.Kind.ops self.old.n self.old self.new }
    {
        let n = self.n;
        // By number: a column is walked, and a loop over row n would split the grid that it reads.
        for t in 0..n {
            let value = self.read(t, b);
            self.write(n, t, value);
        }
    }

    // Fills the rows from n on with the best gains to b, by the number of transitions between.
    pub(crate) fn fill_rows(&mut self, b: usize)
        requires { b < self.old.n }
        ensures tabled { Tabled T.Kind.ops self.old.n (spot T.Kind.ops self.old.n self.old.cells.now) b self.old.n self.new.cells.now }
        ensures kept { Kept T.Kind.ops self.old.n self.old self.new }
    {
        let n = self.n;
        self.turn(b);
        for s in 1..n {
            self.advance(n + s);
        }
    }
}
