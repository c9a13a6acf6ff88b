//! Whether a document satisfies a query. A filter holds the query with its texts cut into words and folded, and is
//! asked of many documents. The words of a document are found at most once in each of two forms, as they are written
//! and case folded, and only where the query seeks more than one text.
#![tactic(auto)]

mod bound;
mod collections;
mod comparing;
mod condition;
mod directories;
mod document_words;
mod filter;
mod holding;
mod matching;
mod nearness;
mod phrase;
mod phrases;
mod preparing;
mod properties;
mod scalar_test;
mod scalar_walk;
mod starting;
mod text_queries;
mod text_walk;
mod tokenized_string;
mod tokenized_strings;
mod values;
mod windows;
mod word_runs;

pub use filter::Filter;
pub use matching::matches;
pub use nearness::is_near;
