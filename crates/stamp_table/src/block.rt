ghost use Rattle.std.specs.Prelude.{◌≡◌, ◌<◌, IfOk, length, slice_index, slice_set};

use crate::shared::share_but;
use sqlite_items::Items;
use std::alloc::{AllocError, Global};
use std::marker::Model;
use std::sync::Arc;

/// How many deleted stamps a chunk has, unless it is the last of its block.
const CHUNK: usize = 256;

/// Deleted stamps in chunks, which blocks share. Contracts see the list of them.
#[derive(Debug, Drop)]
pub(crate) struct Block {
    chunks: Vec<Arc<Items<u64>>>,
}

impl Model for Block {
    ghost use Rattle.std.specs.Prelude.{List, ℕ, map};
    ghost use Rattle.std.specs.Coded.{coded_list, coded_ℕ};
    ghost use Rattle.std.specs.Arc.{arc_value};
    ghost use Rattle.std.specs.List.{concat};
    ghost use Rattle.stamp_table.specs.Tiles.{IsTiled};

    ghost Value = { List ℕ };

    ghost coded = { coded_list coded_ℕ };

    ghost view = { λ b. concat (map arc_value b.chunks.items) };

    ghost invariant = { λ b. IsTiled 256 0 (map arc_value b.chunks.items) };
}

impl Block {
    /// The block of these deleted stamps, in time and memory of their number.
    pub(crate) fn of(alloc: Global, stamps: &[u64]) -> Result<Block, AllocError>
        ensures { IfOk result (λ block. block ≡ stamps.now) }
    {
        let mut chunks = Vec::with_capacity(alloc, stamps.len().div_ceil(CHUNK))?;
        for chunk in stamps.chunks(CHUNK) {
            let chunk = Items::from_slice(alloc, chunk)?;
            chunks.push(Arc::new(alloc, chunk)?)?;
        }
        Ok(Block { chunks })
    }

    /// The deleted stamp of this index, in constant time.
    pub(crate) fn get(&self, i: usize) -> u64
        requires { i < length self.now }
        ensures { result ≡ slice_index self.now i }
    {
        let chunk: &Items<u64> = &self.chunks[i / CHUNK];
        chunk.as_slice()[i % CHUNK]
    }

    /// The block with another deleted stamp of this index. It copies one chunk and shares the others.
    pub(crate) fn set(&self, alloc: Global, i: usize, t: u64) -> Result<Block, AllocError>
        requires { i < length self.now }
        ensures { IfOk result (λ block. block ≡ slice_set self.now i t) }
    {
        let at = i / CHUNK;
        let chunk: &Items<u64> = &self.chunks[at];
        let mut copy = Items::from_slice(alloc, chunk.as_slice())?;
        copy.set(i % CHUNK, t);
        let chunks = share_but(alloc, &self.chunks, at, copy)?;
        Ok(Block { chunks })
    }
}
