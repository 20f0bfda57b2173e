#![tactic(auto)]

mod acts;
mod cards;
mod perform;
mod play;
mod rows;
mod scores;

pub use acts::act_line;
pub use cards::{card, print};
