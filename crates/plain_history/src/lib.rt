//! A history as a plain list of entries, and what it is asked, computed by the definitions: slow and obvious.
//! Tests compare every faster body with it, so far the live documents.
#![tactic(auto)]

mod commits;
mod database;
mod forgets;
mod history;
mod reads;
mod searches;

pub use database::Database;
pub use history::History;
