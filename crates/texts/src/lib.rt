#![tactic(auto)]

mod faults;
mod fields;
mod letters;
mod nets;
mod positions;
mod scores;

pub use faults::{Fault, TextName};
pub use nets::{Header, NetReader, ValueKind};
pub use positions::Position;
pub use scores::{ScoreLine, ScoreReader};
