ghost use Rattle.std.specs.Prelude.{◌≡◌, ℕ, ◌+◌, ◌*◌, ◌<◌, ◌≤◌, length};
ghost use Rattle.plants.specs.Calls.{Forward, Backward};
ghost use Rattle.plants.specs.Fits.{Fits};
ghost use Rattle.walks.specs.Circuits.{Passes};
ghost use Rattle.routes.specs.Routes.{ByRoutes};
ghost use Rattle.nets.specs.Nets.{meant, meant_counted, net_need, staged, Driven, Answer, Solved, Bounded};

use crate::floor::Floor;
use crate::net::Net;
use crate::stage::Stage;
use kinds::{Kind, Refusal};
use plants::{Horizon, Places, Plant};
use routes::Way;

impl<T: Kind> Net<'_, T> {
    // A turn of a call.
    fn stage(&self, way: Way, k: Horizon, at: Places, turn: usize) -> Stage
        requires { turn < k.beats }
        ensures { result ≡ staged self.now way k.beats at turn }
    {
        let beats = k.beats();
        let (beat, given, reads, asked, writes) = match way {
            Way::Forth => (turn, at.input, self.inputs, at.output, self.outputs),
            Way::Back => (
                beats - 1 - turn,
                at.output,
                self.outputs,
                at.input,
                self.inputs,
            ),
        };
        Stage {
            way,
            n: self.transitions,
            beats,
            turn,
            beat,
            given,
            reads,
            asked,
            writes,
            working: at.working,
        }
    }

    // Plays the turns one after the other.
    fn play_all(&self, way: Way, k: Horizon, sheet: &mut [T], at: Places)
        requires fits { Fits self.now.inputs self.now.outputs k.beats (net_need self.now k.beats) at (length sheet.old) }
        requires begun { Driven T.Kind.ops self.now way k.beats at 0 sheet.old sheet.old }
        ensures { Driven T.Kind.ops self.now way k.beats at k.beats sheet.old sheet.new }
    {
        for turn in 0..k.beats() {
            let stage = self.stage(way, k, at, turn);
            let mut floor = Floor {
                links: self.links,
                stage,
                sheet,
            };
            floor.play();
        }
    }

    // Fills the block asked for with the answer to the given block, where the places suit the sheet.
    fn answer(&self, way: Way, k: Horizon, sheet: &mut [T], at: Places) -> Result<(), Refusal>
        ensures { Answer T.Kind.ops self.now way k.beats at sheet.old sheet.new result }
    {
        self.check_places(k, sheet.len(), at)?;
        let stage = self.stage(way, k, at, 0);
        let mut floor = Floor {
            links: self.links,
            stage,
            sheet,
        };
        floor.clear();
        self.play_all(way, k, sheet, at);
        Ok(())
    }
}

impl<T: Kind> Plant for Net<'_, T> {
    type Value = T;

    ghost meaning = { λ s. meant T.Kind.ops s };

    ghost need = { λ s n. net_need s n };

    ghost counted = { meant_counted T.Kind.ops };

    fn inputs(&self) -> usize {
        self.inputs
    }

    fn outputs(&self) -> usize {
        self.outputs
    }

    // A row of states for each beat, and a spare row.
    fn need(&self, k: Horizon) -> usize {
        (k.beats() + 1) * self.transitions
    }

    fn forward(&self, k: Horizon, sheet: &mut [T], at: Places) -> Result<(), Refusal> {
        self.answer(Way::Forth, k, sheet, at)
    }

    fn backward(&self, k: Horizon, sheet: &mut [T], at: Places) -> Result<(), Refusal> {
        self.answer(Way::Back, k, sheet, at)
    }
}

// Two calls of a line each, as each carries a theorem of its own.
impl<T: Kind> Net<'_, T> {
    // Writes the output block that the input block drives. The net's response is the join of
    // the weights of its routes; where every circuit passes, the strikes are what leaves by
    // the least solution of the net's equations.
    pub fn strike(&self, k: Horizon, sheet: &mut [T], at: Places) -> Result<(), Refusal>
        ensures answer { Forward T.Kind.ops (meant T.Kind.ops self.now) (net_need self.now k.beats) k.beats at sheet.old sheet.new result }
        ensures routes { ByRoutes T.Kind.ops self.now.transitions self.now.inputs self.now.outputs self.now.links.now (meant T.Kind.ops self.now).response }
        ensures solution { Passes T.Kind.ops self.now.transitions self.now.links.now → Solved T.Kind.ops self.now k.beats at sheet.old sheet.new result }
    {
        self.forward(k, sheet, at)
    }

    // The latest input block that keeps to the output block. Where every circuit's gain is at
    // most one, it is the residual of the map to the output of the least solution.
    pub fn ceiling(&self, k: Horizon, sheet: &mut [T], at: Places) -> Result<(), Refusal>
        ensures answer { Backward T.Kind.ops (meant T.Kind.ops self.now) (net_need self.now k.beats) k.beats at sheet.old sheet.new result }
        ensures residual { Passes T.Kind.ops self.now.transitions self.now.links.now → Bounded T.Kind.ops self.now k.beats at sheet.old sheet.new result }
    {
        self.backward(k, sheet, at)
    }
}
