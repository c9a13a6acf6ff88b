ghost use Rattle.std.specs.Prelude.{◌≡◌, IfOk};

use crate::Indexes;
use std::alloc::{AllocError, Global};

/// What a database is made with.
#[derive(Debug, Drop)]
pub struct Settings {
    pub indexes: Indexes,
    /// How many fragments in memory make a save due.
    pub save_at: u32,
    /// How many parts on disk make a merge due.
    pub merge_at: u32,
}

impl Settings {
    /// Equal settings.
    pub fn copy(&self, alloc: Global) -> Result<Settings, AllocError>
        ensures { IfOk result (λ s. s ≡ self.now) }
    {
        Ok(Settings {
            indexes: self.indexes.copy(alloc)?,
            save_at: self.save_at,
            merge_at: self.merge_at,
        })
    }
}
