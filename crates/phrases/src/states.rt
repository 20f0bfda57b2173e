ghost use Rattle.std.specs.Prelude.{◌≡◌, ℕ, ◌<◌, ◌≤◌, false, length};
ghost use Rattle.phrases.specs.Orders.{lane_at};

use crate::lanes::Lanes;
use plants::Horizon;

pub(crate) mod blocks;
pub mod calls;
pub mod events;
pub mod phase;
pub mod run;
mod steps;

// A plant, the beats of the phrase, and a lane for each input.
#[derive(Drop)]
pub struct Phrase<P> {
    plant: P,
    horizon: Horizon,
    lanes: Lanes,
    ghost within: { (i : ℕ) → i < 16 → (lane_at lanes.table i).fixed ≤ horizon.beats },
    ghost sixteen: { length lanes.table ≡ 16 },
}

// Three types, with a line for each call: one type by stage would need a marker for each stage
// and a trait for each call that two stages take.

// A phrase that is not yet started: no beat is fixed and no order is out.
#[derive(Drop)]
pub struct Written<P> {
    phrase: Phrase<P>,
    ghost unfixed: { (i : ℕ) → i < 16 → (lane_at phrase.lanes.table i).fixed ≡ 0 },
    ghost home: { (i : ℕ) → i < 16 → (lane_at phrase.lanes.table i).out ≡ false },
}

// A phrase that is started: it takes dues, orders, firings and misses.
#[derive(Drop)]
pub struct Playing<P> {
    phrase: Phrase<P>,
}

// A phrase that is ended: it takes misses only, and strikes.
#[derive(Drop)]
pub struct Ended<P> {
    phrase: Phrase<P>,
}
