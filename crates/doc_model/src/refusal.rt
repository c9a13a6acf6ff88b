use crate::{Kind, Text};

/// Why a URI, collections and a tree make no document: the first rule that they break, or want of memory.
#[derive(Clone, Copy, Debug, PartialEq, Eq)]
pub enum DocRefusal {
    /// The URI isn't 1 to 1,024 bytes, or has a byte below 0x21 or the byte 0x7F.
    Uri,
    /// There are more than 64 collections, one isn't 1 to 1,024 bytes, or they don't rise strictly by their bytes.
    Collections,
    /// More than 128 arrays and objects enclose each other.
    Depth,
    /// An object has two members of one name.
    Names,
    /// The nodes, and the bytes of all texts, names, the URI and the collections, are more than 2^24 together.
    Size,
    /// There was no memory to look for doubled names.
    Memory,
}

/// Why operations make no commit: the first rule that they break.
#[derive(Clone, Copy, Debug, PartialEq, Eq)]
pub enum OpsRefusal {
    /// There are none, or more than 1,000.
    Count { n: u64 },
    /// The sizes of the documents are more than 2^24 together.
    Size,
}

/// Why a query is refused: the first rule that it breaks, or want of memory.
#[derive(Debug, Drop)]
pub enum QueryBad {
    /// More than `limit` queries lie within each other, the outermost counted.
    TooDeep { limit: u32 },
    /// The queries, texts, names, values and URIs are more than `limit` together.
    TooMany { limit: u32 },
    /// The URI of a directory doesn't end with a slash.
    BadDirectory,
    /// A child of a near query is neither a word query, of a property or not, nor an or-query of such children.
    NearChild,
    /// A range query compares a property with a value for which there is no index. The first such pair counts: a
    /// query comes before its children, and in one query each name is taken with its values in turn.
    NoRange { name: Text, kind: Kind },
    /// There was no memory for the name of the missing index.
    Memory,
}
