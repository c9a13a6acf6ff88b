//! Reads the bodies of the logs' frames one by one: the newest root, and the entries past its checkpoint.
#![tactic(auto)]

mod entries;
mod newest;
mod replay;
mod roots;
mod unread;
mod walk;

pub use entries::EntriesRead;
pub use newest::{Newest, newest_root};
pub use replay::{Frozen, Replay, replay_journals};
pub use roots::RootsRead;
pub use unread::LogBad;
