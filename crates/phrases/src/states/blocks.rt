ghost use Rattle.std.specs.Prelude.{◌≡◌, ◌*◌, ◌≤◌};
ghost use Rattle.phrases.specs.Promises.{BlocksAnswer};

use crate::states::Phrase;
use kinds::{Kind, Refusal};
use plants::{Horizon, Plant};

// Where the blocks of a sheet begin, one after the other. The score begins at 0.
#[derive(Clone, Copy)]
pub(crate) struct Blocks {
    pub(crate) plan: usize,
    pub(crate) strikes: usize,
    pub(crate) spare: usize,
    pub(crate) working: usize,
}

impl<P: Plant> Phrase<P> {
    // The cells of so many wires.
    pub(crate) fn cells(&self, wires: usize) -> usize
        requires { wires ≤ 16 }
        ensures { (result ≡ wires * self.now.horizon.beats) × (result ≤ 1024) }
    {
        wires * self.horizon.beats()
    }

    // Where the blocks of a sheet begin that has all the cells. Refused with 8.
    pub(crate) fn blocks(&self, sheet: &[P::Value]) -> Result<Blocks, Refusal>
        ensures { BlocksAnswer P.Value.Kind.ops P.Plant.meaning P.Plant.need self.now sheet.now result }
    {
        let plan = self.cells(self.plant.outputs());
        let strikes = plan + self.cells(self.plant.inputs());
        let spare = strikes + plan;
        let working = spare + self.cells(self.plant.inputs());
        let need = self.plant.need(self.horizon);
        if working > sheet.len() || need > sheet.len() - working {
            return Err(Refusal::Short);
        }
        Ok(Blocks {
            plan,
            strikes,
            spare,
            working,
        })
    }
}
