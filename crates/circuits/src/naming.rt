ghost use Rattle.std.specs.Prelude.{◌*◌, ◌<◌, ◌≤◌, length, MatchBool};
ghost use Rattle.kinds.specs.Kind.{AtMost};
ghost use Rattle.walks.specs.Walks.{best};
ghost use Rattle.circuits.specs.Grids.{spot, Stays, FirstFailing, Tabled, Listed};

use crate::grid::Grid;
use crate::search::{Walk, is_low};
use kinds::Kind;

// Whether the gain so far, times two more, is at most one.
fn stays<T: Kind>(so_far: T, a: T, b: T) -> bool
    ensures { MatchBool result (AtMost T.Kind.ops (T.Kind.ops.product (T.Kind.ops.product so_far a) b) T.Kind.ops.one) (AtMost T.Kind.ops (T.Kind.ops.product (T.Kind.ops.product so_far a) b) T.Kind.ops.one → ⊥) }
{
    let step = so_far.product(a);
    is_low(step.product(b))
}

impl<T: Kind> Grid<'_, T> {
    // The first column in which the gain so far, times the cells of two rows, is not at most one.
    fn next(&self, so_far: T, at: usize, row: usize) -> Option<usize>
        requires at_within { at < 2 * self.now.n }
        requires row_within { row < 2 * self.now.n }
        ensures { FirstFailing (Stays T.Kind.ops self.now.n self.now.cells.now so_far at row) self.now.n result }
    {
        let mut steps = self.row(at).iter().zip(self.row(row));
        steps.position(|(a, b)| !stays(so_far, *a, *b))
    }

    // Writes into the list the start and, greedily, the transitions of the first high walk back to it.
    pub(crate) fn name(&self, walk: Walk, list: &mut [u8])
        requires few { self.now.n ≤ 64 }
        requires start_within { walk.start < self.now.n }
        requires more_within { walk.more < self.now.n }
        requires space { self.now.n ≤ length list.old }
        requires tabled { Tabled T.Kind.ops self.now.n (spot T.Kind.ops self.now.n self.now.cells.now) walk.start self.now.n self.now.cells.now }
        requires bad { AtMost T.Kind.ops (best T.Kind.ops self.now.n (spot T.Kind.ops self.now.n self.now.cells.now) walk.more walk.start walk.start) T.Kind.ops.one → ⊥ }
        ensures { Listed T.Kind.ops self.now.n (spot T.Kind.ops self.now.n self.now.cells.now) walk.start walk.more list.old list.new }
    {
        let mut at = walk.start;
        let mut so_far = T::one();
        // By `as` here and below: under 64, so that no bit is lost.
        list[0] = walk.start as u8;
        for (i, slot) in list[1..=walk.more].iter_mut().enumerate() {
            let x = self.next(so_far, at, self.n + (walk.more - 1 - i)).unwrap();
            so_far = so_far.product(self.read(at, x));
            at = x;
            *slot = x as u8;
        }
    }
}
