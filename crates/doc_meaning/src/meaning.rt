use sqlite_items::Items;

/// What a query says of one document: whether it holds, and the numbers of the words at which it starts.
#[derive(Debug, Drop)]
pub struct Meaning {
    pub holds: bool,
    pub starts: Items<u64>,
}
