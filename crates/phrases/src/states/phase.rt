ghost use Rattle.std.specs.Prelude.{◌≡◌};
ghost use Rattle.phrases.specs.Phases.{phrase_of};

use crate::lanes::Order;
use crate::states::{Ended, Phrase, Playing, Written};

// A phrase at any stage.
#[derive(Drop)]
pub enum Phase<P> {
    Written(Written<P>),
    Playing(Playing<P>),
    Ended(Ended<P>),
}

// What a list of calls left: the phrase, and for each input its order if it is out.
pub struct Performance<P> {
    pub phase: Phase<P>,
    pub orders: [Option<Order>; 16],
}

impl<P> Phase<P> {
    pub(crate) fn phrase(&self) -> &Phrase<P>
        ensures { result.now ≡ phrase_of self.now }
    {
        match self {
            Phase::Written(w) => &w.phrase,
            Phase::Playing(p) => &p.phrase,
            Phase::Ended(e) => &e.phrase,
        }
    }
}
