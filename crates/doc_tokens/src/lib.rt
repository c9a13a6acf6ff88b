//! The words of a text, as they are written and case folded, and in which of the two forms a query text is compared.
#![tactic(auto)]

mod folding;
mod ignoring_case;
mod spans;
mod word_char;
mod word_lists;

pub use folding::fold;
pub use ignoring_case::ignores_case;
pub use spans::words;
pub use word_char::is_word_char;
pub use word_lists::{folded_words, plain_words, words_seen};
