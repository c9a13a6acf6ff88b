use doc_model::Text;

/// An operation that expects another live version than there is.
#[derive(Debug, Drop)]
pub struct Conflict {
    /// The URI that the operation names.
    pub uri: Text,
    /// When the live version was created, 0 where there is none.
    pub found: u64,
}
