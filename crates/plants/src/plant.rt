ghost use Rattle.std.specs.Prelude.{◌≡◌, ℕ};
ghost use Rattle.plants.specs.Meaning.{Meaning, Counted};
ghost use Rattle.plants.specs.Calls.{Checked, Forward, Backward};
ghost use Rattle.plants.specs.Fits.{Fits};

use crate::horizon::Horizon;
use crate::places::Places;
use kinds::{Kind, Refusal};

// A box with inputs and outputs. Its meaning is how many it has of each, 1 to 16, and
// its response by output, input and delay.
pub trait Plant {
    type Value: Kind;

    ghost meaning: { Self → Meaning Self.Value };

    // the working cells of a call at a number of beats
    ghost need: { Self → ℕ → ℕ };

    ghost counted: { (s : Self) → Counted (meaning s) };

    fn inputs(&self) -> usize
        ensures { result ≡ (meaning self.now).inputs };

    fn outputs(&self) -> usize
        ensures { result ≡ (meaning self.now).outputs };

    fn need(&self, k: Horizon) -> usize
        ensures { result ≡ need self.now k.beats };

    // Refuses places that do not suit a sheet of `len` cells.
    fn check_places(&self, k: Horizon, len: usize, at: Places) -> Result<(), Refusal>
        ensures { Checked (Fits (meaning self.now).inputs (meaning self.now).outputs k.beats (need self.now k.beats) at len) result }
    {
        if at.fit(self.inputs(), self.outputs(), k, self.need(k), len) {
            Ok(())
        } else {
            Err(Refusal::Short)
        }
    }

    // Horizon, sheet and places stay apart here and below: a caller keeps one horizon, lends
    // the sheet anew and picks the places for each call.

    // Writes the output block that the input block drives.
    fn forward(&self, k: Horizon, sheet: &mut [Self::Value], at: Places) -> Result<(), Refusal>
        ensures { Forward Self.Value.Kind.ops (meaning self.now) (need self.now k.beats) k.beats at sheet.old sheet.new result };

    // Writes the greatest input block whose forward answer is at most the output block.
    fn backward(&self, k: Horizon, sheet: &mut [Self::Value], at: Places) -> Result<(), Refusal>
        ensures { Backward Self.Value.Kind.ops (meaning self.now) (need self.now k.beats) k.beats at sheet.old sheet.new result };
}
