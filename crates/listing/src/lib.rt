#![tactic(auto)]

mod blocks;
mod faults;
mod lines;

pub use blocks::block_line;
pub use faults::refused;
pub use lines::{Block, CardLine, Event, Spot};
