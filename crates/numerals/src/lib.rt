#![tactic(auto)]

mod cards;
mod decimal;
mod hexadecimal;
mod numbers;

pub use cards::{CardKind, Misread, reads_back, shows_text};
pub use decimal::read_number;
pub use hexadecimal::read_bits;
pub use numbers::Number;
