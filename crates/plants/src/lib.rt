#![tactic(auto)]

mod cells;
mod fitting;
mod horizon;
mod laws;
mod places;
mod plant;

pub use cells::fill;
pub use horizon::Horizon;
pub use laws::plants_answer_in_order;
pub use places::Places;
pub use plant::Plant;
