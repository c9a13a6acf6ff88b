//! A line that is longer than those of a session, and the text of each reply that no session gives yet.

mod sizes;
mod texts;
