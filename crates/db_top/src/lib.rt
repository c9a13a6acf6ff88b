//! What the program does: `init`, `run` and `check`, over any world.
#![tactic(auto)]

mod checking;
mod lines;
mod making;
mod program;
mod reporting;
mod serving;
mod status;

pub use program::run;
pub use status::Status;
