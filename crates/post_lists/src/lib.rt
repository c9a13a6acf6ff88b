//! Term lists: numbers that rise strictly, kept as the bytes of their postings, with a table of skips.
#![tactic(auto)]

mod laws;
mod numbers;
mod refusal;
mod sets;
mod skip;
mod term_list;

pub use laws::one_place;
pub use refusal::ListRefusal;
pub use sets::{and, minus, or};
pub use term_list::{Cursor, TermList};
