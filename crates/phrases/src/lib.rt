#![tactic(auto)]

mod cells;
mod lanes;
mod states;

pub use lanes::{Lane, Lanes, Order, Returned};
pub use states::calls::write;
pub use states::events::Happened;
pub use states::phase::{Performance, Phase};
pub use states::run::perform;
pub use states::{Ended, Phrase, Playing, Written};
