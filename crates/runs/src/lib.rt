#![tactic(auto)]

mod acts;
mod laws;
mod told;

pub use acts::{Act, Answer, Call};
pub use laws::{run_fixes_answers, run_fixes_state};
