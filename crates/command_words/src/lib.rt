//! The words of a run: which command they ask, of which directory, with which settings.
//!
//! Reading takes no memory, so words that don't fit are told from those that do also where memory is short.
#![tactic(auto)]

mod asked;
mod numbers;
mod ranges;
mod reading;
mod scan;
#[cfg(test)]
mod tests;
mod uses;

pub use asked::{Command, Init, understand};
pub use ranges::{MAX_RANGES, Range};
