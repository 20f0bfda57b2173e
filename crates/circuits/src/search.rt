ghost use Rattle.std.specs.Prelude.{◌+◌, ◌*◌, ◌<◌, ◌≤◌, MatchBool};
ghost use Rattle.kinds.specs.Kind.{AtMost};
ghost use Rattle.circuits.specs.Grids.{spot, Kept, FirstFailing, Found};

use crate::grid::Grid;
use kinds::Kind;

// A start, and through how many more transitions the walk from it leads back.
#[derive(Clone, Copy)]
pub(crate) struct Walk {
    pub(crate) start: usize,
    pub(crate) more: usize,
}

// Whether a value is at most one.
pub(crate) fn is_low<T: Kind>(value: T) -> bool
    ensures { MatchBool result (AtMost T.Kind.ops value T.Kind.ops.one) (AtMost T.Kind.ops value T.Kind.ops.one → ⊥) }
{
    value.at_most(T::one())
}

impl<T: Kind> Grid<'_, T> {
    // Whether a cell is at most one.
    fn passes(&self, row: usize, column: usize) -> bool
        requires row_within { row < 2 * self.now.n }
        requires column_within { column < self.now.n }
        ensures { MatchBool result (AtMost T.Kind.ops (spot T.Kind.ops self.now.n self.now.cells.now row column) T.Kind.ops.one) (AtMost T.Kind.ops (spot T.Kind.ops self.now.n self.now.cells.now row column) T.Kind.ops.one → ⊥) }
    {
        is_low(self.read(row, column))
    }

    // The first of `limit` rows from n on whose cell in column b is not at most one, counted from 0.
    fn shortest(&self, b: usize, limit: usize) -> Option<usize>
        requires within { b < self.now.n }
        requires below { limit ≤ self.now.n }
        ensures { FirstFailing (λ s. AtMost T.Kind.ops (spot T.Kind.ops self.now.n self.now.cells.now (self.now.n + s) b) T.Kind.ops.one) limit result }
    {
        (0..limit).find(|s| !self.passes(self.n + *s, b))
    }

    // The first of the shortest walks whose gain is not at most one.
    pub(crate) fn search(&mut self) -> Option<Walk>
        ensures found { Found T.Kind.ops self.old.n (spot T.Kind.ops self.old.n self.old.cells.now) self.old.n result }
        ensures kept { Kept T.Kind.ops self.old.n self.old self.new }
    {
        let n = self.n;
        let mut found: Option<Walk> = None;
        for b in 0..n {
            self.fill_rows(b);
            let limit = found.map_or(n, |walk| walk.more);
            if let Some(more) = self.shortest(b, limit) {
                found = Some(Walk { start: b, more });
            }
        }
        found
    }
}
