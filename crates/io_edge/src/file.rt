//! A sealed file.

ghost use Rattle.std.specs.Prelude.{None};

use disk_model::SealedFile;
use std::fs::File;

/// A sealed file, open for reading. It stays readable once its name is removed.
#[derive(Drop)]
pub struct SystemFile {
    pub(crate) number: u64,
    pub(crate) size: u64,
    pub(crate) path: String,
    pub(crate) file: File,
}

impl SealedFile for SystemFile {
    ghost number = { λ f. f.number };

    ghost mark = { λ f. 0 };

    ghost size = { λ f. f.size };

    ghost bytes = { λ f. None };

    fn number(&self) -> u64 {
        self.number
    }

    fn len(&self) -> u64 {
        self.size
    }

    ghost fits = { λ f. tt };
}
