//! The logs of a directory: a pair of journals, whose frames are entries, and a pair of root logs.
#![tactic(auto)]

mod asking;
mod broken_off;
mod calls;
mod journal;
mod journals;
mod making;
mod opening;
mod reading;
mod refusal;
mod root_logs;
mod syncing;

pub use broken_off::BrokenOff;
pub use journal::Journal;
pub use making::make;
pub use opening::{Scanned, scan_all};
pub use refusal::{JournalRefusal, MakeRefusal};
