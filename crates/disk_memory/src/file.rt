//! A sealed file in memory.

ghost use Rattle.std.specs.Prelude.{length, Some, refl};

use disk_model::SealedFile;

/// A sealed file. Its bytes are never freed, so that each holder of the value can read them, and `admit` takes no
/// memory.
#[derive(Clone, Copy)]
pub struct MemoryFile {
    pub number: u64,
    pub mark: u64,
    pub bytes: &'static [u8],
}

impl SealedFile for MemoryFile {
    ghost number = { λ f. f.number };

    ghost mark = { λ f. f.mark };

    ghost size = { λ f. length f.bytes.now };

    ghost bytes = { λ f. Some f.bytes.now };

    fn number(&self) -> u64 {
        self.number
    }

    fn len(&self) -> u64 {
        self.bytes.len() as u64
    }

    ghost fits = { λ f. refl };
}
