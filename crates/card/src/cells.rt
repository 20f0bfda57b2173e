ghost use Rattle.std.specs.Prelude.{◌≡◌, ◌++◌, length, OnOk, string_bytes};
ghost use Rattle.card.specs.Cells.{cell_row, cell_rows, cell_at};

use kinds::Kind;
use numerals::{CardKind, Number};
use plants::Horizon;
use std::alloc::AllocError;

// Appends a row that tells one cell: its wire, its beat and its value.
fn write_cell<T: CardKind>(
    wire: usize,
    beat: usize,
    value: T,
    out: &mut String,
) -> Result<(), AllocError>
    ensures { OnOk result (string_bytes out.new ≡ string_bytes out.old ++ cell_row T.CardKind.text wire beat value) }
{
    let wire = Number::from(wire);
    let beat = Number::from(beat);
    writeln!(out, "output {wire}, beat {beat}: {value}")
}

// Appends a row for each of the cells, by wire, then beat.
// Not one loop with the printed card's: the rows differ, and a closure that writes one would
// need a clause for its text.
pub(crate) fn write_cells<T: CardKind>(
    cells: &[T],
    k: Horizon,
    out: &mut String,
) -> Result<(), AllocError>
    ensures { OnOk result (string_bytes out.new ≡ string_bytes out.old ++ cell_rows T.CardKind.text k.beats (cell_at T.Kind.ops cells.now 0) (length cells.now)) }
{
    let beats = k.beats();
    for (n, value) in cells.iter().enumerate() {
        write_cell(n / beats, n % beats, *value, out)?;
    }
    Ok(())
}
