//! A root.

use doc_model::Settings;
use sqlite_items::Items;

/// The numbers of the three files of a part on disk, and how many fragments it has.
#[derive(Clone, Copy, Debug)]
pub struct PartFiles {
    pub index: u64,
    pub documents: u64,
    pub stamps: u64,
    pub fragments: u32,
}

/// A root: which files make up a database, and up to which timestamp they hold its history.
#[derive(Debug, Drop)]
pub struct Root {
    /// The root with the greatest number counts.
    pub number: u64,
    /// The timestamp up to which the files hold the history.
    pub checkpoint: u64,
    /// The merge timestamp at the checkpoint.
    pub merge: u64,
    /// The timestamp below which versions that were deleted may be missing in the files.
    pub horizon: u64,
    /// The number of the next file.
    pub next: u64,
    pub settings: Settings,
    pub parts: Items<PartFiles>,
    /// The numbers of files that are still to be removed.
    pub removed: Items<u64>,
}
