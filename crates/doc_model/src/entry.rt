use crate::Ops;

/// An entry of a history. Its timestamp is its place there, from 1.
#[derive(Debug, Drop)]
pub enum Entry {
    /// The operations of one commit, done together.
    Commit(Ops),
    /// The timestamp below which queries are no longer answered.
    Forget(u64),
}
