#![tactic(auto)]

mod cells;
mod reports;
mod responses;
mod words;

pub use reports::report;
