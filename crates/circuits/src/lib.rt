#![tactic(auto)]

ghost use Rattle.std.specs.Prelude.{◌≡◌, ◌≤◌, min, max};
ghost use Rattle.circuits.specs.Checks.{Checked};
ghost use Rattle.circuits.specs.Faults.{refusal_of};

use crate::grid::Grid;
use kinds::{Kind, Refusal};
use links::Link;

mod cells;
mod grid;
mod naming;
mod rows;
mod search;

// Why a net is not accepted.
#[derive(Clone, Copy, PartialEq, Eq, Debug)]
pub enum CircuitFault {
    // The working cells or the list are too short.
    Short,
    // A circuit's start, and how many transitions it has.
    Circuit(usize, usize),
}

impl From<CircuitFault> for Refusal {
    ghost from_gives = { λ f r. r ≡ refusal_of f };

    fn from(fault: CircuitFault) -> Refusal {
        match fault {
            CircuitFault::Short => Refusal::Short,
            CircuitFault::Circuit(_, _) => Refusal::Circuit,
        }
    }
}

// The check of a net of n transitions.
fn check<T: Kind>(
    links: &[Link<T>],
    n: usize,
    cells: &mut [T],
    list: &mut [u8],
) -> Result<(), CircuitFault>
    requires few { n ≤ 64 }
    ensures { Checked T.Kind.ops n links.now cells.old cells.new list.old list.new result }
{
    if cells.len() < 2 * n * n || list.len() < 64 {
        return Err(CircuitFault::Short);
    }
    let mut grid = Grid { cells, n };
    grid.load(links);
    let Some(walk) = grid.search() else {
        return Ok(());
    };
    grid.fill_rows(walk.start);
    grid.name(walk, list);
    Err(CircuitFault::Circuit(walk.start, walk.more + 1))
}

// Whether every circuit of tokenless places has a gain of at most one. Else the first of the
// shortest that have not is named: the list then begins with its transitions. Cells and list are
// lent, as no heap is used here.
pub fn check_circuits<T: Kind>(
    links: &[Link<T>],
    transitions: usize,
    cells: &mut [T],
    list: &mut [u8],
) -> Result<(), CircuitFault>
    ensures { Checked T.Kind.ops (max 1 (min transitions 64)) links.now cells.old cells.new list.old list.new result }
{
    check(links, transitions.clamp(1, 64), cells, list)
}
