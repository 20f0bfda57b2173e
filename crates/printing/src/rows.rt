ghost use Rattle.std.specs.Prelude.{◌≡◌, ◌++◌, length, OnOk, string_bytes};
ghost use Rattle.plants.specs.Meaning.{block as block_at};
ghost use Rattle.printing.specs.ActLines.{act_line};
ghost use Rattle.printing.specs.Rows.{row_if, act_rows, cell_rows};

use crate::acts::act_line;
use listing::{Block, CardLine};
use numerals::CardKind;
use plants::Horizon;
use runs::Act;
use std::alloc::AllocError;

// Appends the line of a call, if a card lists it.
fn write_act<T: CardKind>(act: Act<T>, out: &mut String) -> Result<(), AllocError>
    ensures { OnOk result (string_bytes out.new ≡ string_bytes out.old ++ row_if T.CardKind.text (act_line T.Kind.ops.bottom act)) }
{
    match act_line(act) {
        Some(line) => writeln!(out, "{line}"),
        None => Ok(()),
    }
}

// Appends the lines of the calls that a card lists.
pub(crate) fn write_acts<T: CardKind>(acts: &[Act<T>], out: &mut String) -> Result<(), AllocError>
    ensures { OnOk result (string_bytes out.new ≡ string_bytes out.old ++ act_rows T.CardKind.text T.Kind.ops.bottom acts.now) }
{
    for act in acts {
        write_act(*act, out)?;
    }
    Ok(())
}

// Appends a line for each of the cells, by wire, then beat. Not one loop with the report's, as
// said there, and not by `block_line`, which would look up each cell again.
pub(crate) fn write_block<T: CardKind>(
    block: Block,
    k: Horizon,
    cells: &[T],
    out: &mut String,
) -> Result<(), AllocError>
    ensures { OnOk result (string_bytes out.new ≡ string_bytes out.old ++ cell_rows T.CardKind.text block k.beats (block_at T.Kind.ops cells.now 0 k.beats) (length cells.now)) }
{
    let beats = k.beats();
    for (n, value) in cells.iter().enumerate() {
        let line = CardLine::Cell {
            block,
            wire: n / beats,
            beat: n % beats,
            value: *value,
        };
        writeln!(out, "{line}")?;
    }
    Ok(())
}
