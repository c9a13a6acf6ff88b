//! Lines to commands, and replies to bytes.
#![tactic(auto)]

mod commits;
mod faults;
mod form;
mod found;
mod laws;
mod lookups;
mod outbox;
mod prefix_match;
mod reading;
mod refusal;
mod refusing;
mod row;
mod rows;
mod scan;
mod token;
mod word_kind;
mod words;
mod writing;

pub use laws::one_reading_is_had;
pub use outbox::Outbox;
pub use reading::read_line;
pub use refusal::LineRefusal;
pub use writing::write_reply;
