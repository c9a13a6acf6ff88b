use doc_model::Document;

/// A document and the timestamp of the commit that put it.
#[derive(Debug, Drop)]
pub struct Version {
    pub document: Document,
    pub created: u64,
}
