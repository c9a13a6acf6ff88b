/// Arrays and objects of a document that enclose each other: readers recurse, so this bounds their stack.
pub const MAX_DOCUMENT_DEPTH: u32 = 128;

/// Nodes and bytes of a document, and of all that a commit puts: an entry is read and written in one piece.
pub const MAX_SIZE: u64 = 16_777_216;

/// Bytes of a URI and of the name of a collection: memory and each entry that names it keep it whole.
pub const MAX_NAME_BYTES: usize = 1024;

/// Collections of a document: a query looks through them for each of its own names.
pub const MAX_COLLECTIONS: usize = 64;

/// Operations of a commit: an entry of the journal holds them all.
pub const MAX_OPERATIONS: usize = 1000;

/// Range indexes of a database: each name of a range query looks through them all.
pub const MAX_INDEXES: usize = 64;

/// Queries that lie within each other, the outermost counted: checks and searches recurse.
pub const MAX_QUERY_DEPTH: u32 = 32;

/// Queries, texts, names, values and URIs of a query: a search may look at each for every document.
pub const MAX_QUERY_ITEMS: u32 = 10_000;
