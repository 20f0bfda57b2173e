#![tactic(auto)]

mod checked_nets;
mod checks;
mod copies;
mod errors;
mod loads;

pub use checked_nets::{AnyNet, CheckedNet};
pub use copies::copies_of;
pub use errors::LoadError;
pub use loads::load;
