ghost use Rattle.std.specs.Prelude.{◌≡◌, ◌≤◌};
ghost use Rattle.plants.specs.Horizons.{Made};

use crate::horizon::Horizon;
use kinds::Refusal;

// A horizon of 1 to 64 beats.
impl TryFrom<usize> for Horizon {
    type Error = Refusal;

    ghost try_from_gives = { Made };

    fn try_from(beats: usize) -> Result<Horizon, Refusal> {
        if beats < 1 || beats > 64 {
            return Err(Refusal::Range);
        }
        Ok(Horizon { beats })
    }
}

impl Horizon {
    pub fn beats(self) -> usize
        ensures { (result ≡ self.beats) × (1 ≤ result) × (result ≤ 64) }
    {
        self.beats
    }
}
