ghost use Rattle.std.specs.Prelude.{◌≡◌, slice_get};
ghost use Rattle.listing.specs.BlockLines.{block_lines};

use crate::lines::{Block, CardLine};
use plants::Horizon;

// The line of the cell at an index of a block, by wire, then beat.
pub fn block_line<T: Copy>(
    block: Block,
    horizon: Horizon,
    cells: &[T],
    index: usize,
) -> Option<CardLine<T>>
    ensures { result ≡ slice_get (block_lines block horizon.beats cells.now) index }
{
    let value = *cells.get(index)?;
    let beats = horizon.beats();
    Some(CardLine::Cell {
        block,
        wire: index / beats,
        beat: index % beats,
        value,
    })
}
