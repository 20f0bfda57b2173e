#![tactic(auto)]

mod floor;
mod moves;
mod net;
mod stage;

pub use net::Net;
