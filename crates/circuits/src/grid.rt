ghost use Rattle.std.specs.Prelude.{◌*◌, ◌≤◌, length};

// Lent cells as 2n rows of n; the cells after these are left alone.
#[derive(Drop)]
pub(crate) struct Grid<'a, T> {
    pub(crate) cells: &'a mut [T],
    pub(crate) n: usize,
    ghost room: { 2 * n * n ≤ length cells.now },
}
