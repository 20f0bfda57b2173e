#![tactic(auto)]

mod series;

pub use series::{Series, series_answers_in_turn};
