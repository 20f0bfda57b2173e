ghost use Rattle.std.specs.Prelude.{◌+◌, ◌<◌, ◌≤◌, MatchBool};
ghost use Rattle.plants.specs.Fits.{Fits};

use crate::horizon::Horizon;
use crate::places::Places;

// Whether `cells` cells from `start` end at `limit` or before it.
fn ends_by(start: usize, cells: usize, limit: usize) -> bool
    ensures { MatchBool result (start + cells ≤ limit) (limit < start + cells) }
{
    start.checked_add(cells).is_some_and(|end| end <= limit)
}

impl Places {
    // Whether a call with these counts of wires and `need` working cells has its space in a
    // sheet of `len` cells: the blocks are apart, both end before the working cells begin,
    // and the sheet covers the need.
    pub fn fit(self, inputs: usize, outputs: usize, k: Horizon, need: usize, len: usize) -> bool
        ensures { MatchBool result (Fits inputs outputs k.beats need self len) (Fits inputs outputs k.beats need self len → ⊥) }
    {
        let Some(read) = inputs.checked_mul(k.beats()) else {
            return false;
        };
        let Some(written) = outputs.checked_mul(k.beats()) else {
            return false;
        };
        (ends_by(self.input, read, self.output) || ends_by(self.output, written, self.input))
            && ends_by(self.input, read, self.working)
            && ends_by(self.output, written, self.working)
            && ends_by(self.working, need, len)
    }
}
