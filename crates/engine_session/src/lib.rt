//! A session with an engine.
#![tactic(auto)]

mod answering;
mod replying;
mod serving;

pub use serving::serve;
