//! The engine of a database over a directory's logs: commits, and what a reader sees at the front.
#![tactic(auto)]

mod checks;
mod commits;
mod creating;
mod engine;
mod found;
mod laws;
mod opening;
mod refusal;
mod restoring;
mod snapshot;

pub use engine::Engine;
pub use laws::{represented_is_shown, untouched_is_shown};
pub use refusal::{CommitRefusal, OpenRefused, OpenWhy, Pending, SearchRefusal, TooOld};
pub use snapshot::Snapshot;
