ghost use Rattle.std.specs.Prelude.{◌≡◌, ◌<◌, ◌^◌, IfOk, length, replicate, slice_index, slice_set};

use crate::block::Block;
use crate::shared::{share, share_but};
use std::alloc::{AllocError, Global};
use std::marker::Model;
use std::sync::Arc;

/// How many deleted stamps a block has, unless it is the last one: 256 chunks of 256.
const BLOCK: usize = 65_536;

/// The deleted stamps of a part's fragments, in their order, 0 where a fragment has none. Contracts see the list of
/// them. A table never changes: `set` returns another one.
///
/// They are in chunks of 256, the chunks in blocks of 256, and the blocks in a list. Tables share chunks and blocks.
/// A table of at most 256 is one chunk of just so many.
#[derive(Debug, Drop)]
pub struct Stamps {
    blocks: Vec<Arc<Block>>,
    len: u32,
}

impl Model for Stamps {
    ghost use Rattle.std.specs.Prelude.{◌≡◌, List, ℕ, length, map};
    ghost use Rattle.std.specs.Coded.{coded_list, coded_ℕ};
    ghost use Rattle.std.specs.Arc.{arc_value};
    ghost use Rattle.std.specs.List.{concat};
    ghost use Rattle.stamp_table.specs.Tiles.{IsTiled};

    ghost Value = { List ℕ };

    ghost coded = { coded_list coded_ℕ };

    ghost view = { λ s. concat (map arc_value s.blocks.items) };

    ghost invariant = { λ s. IsTiled 65536 0 (map arc_value s.blocks.items)
        × (s.len ≡ length (concat (map arc_value s.blocks.items))) };
}

impl Stamps {
    /// So many fragments without a deleted stamp, in time and memory of their number.
    pub fn new(alloc: Global, len: u32) -> Result<Stamps, AllocError>
        ensures { IfOk result (λ stamps. stamps ≡ replicate len 0) }
    {
        Stamps::of(alloc, vec![in alloc; 0; len as usize]?)
    }

    /// The deleted stamps of a list, in time and memory of its length.
    pub fn of(alloc: Global, list: Vec<u64>) -> Result<Stamps, AllocError>
        requires { length list.items < 2 ^ 32 }
        ensures { IfOk result (λ stamps. stamps ≡ list.items) }
    {
        let mut blocks = Vec::with_capacity(alloc, list.len().div_ceil(BLOCK))?;
        for block in list.chunks(BLOCK) {
            let block = Block::of(alloc, block)?;
            blocks.push(Arc::new(alloc, block)?)?;
        }
        Ok(Stamps {
            blocks,
            len: list.len() as u32,
        })
    }

    /// The number of fragments, in constant time.
    pub fn len(&self) -> u32
        ensures { result ≡ length self.now }
    {
        self.len
    }

    /// The deleted stamp of a fragment, 0 where it has none, in constant time.
    pub fn get(&self, i: u32) -> u64
        requires { i < length self.now }
        ensures { result ≡ slice_index self.now i }
    {
        let i = i as usize;
        let block: &Block = &self.blocks[i / BLOCK];
        block.get(i % BLOCK)
    }

    /// The table in which a fragment gets its deleted stamp. It copies one chunk, shares the others of that block, and
    /// shares the other blocks. So for n fragments it takes time and memory of at most 512 + n / 65,536.
    pub fn set(&self, alloc: Global, i: u32, t: u64) -> Result<Stamps, AllocError>
        requires within { i < length self.now }
        requires stamp { 0 < t }
        requires none { slice_index self.now i ≡ 0 }
        ensures { IfOk result (λ stamps. stamps ≡ slice_set self.now i t) }
    {
        let i = i as usize;
        let at = i / BLOCK;
        let block: &Block = &self.blocks[at];
        let changed = block.set(alloc, i % BLOCK, t)?;
        let blocks = share_but(alloc, &self.blocks, at, changed)?;
        Ok(Stamps {
            blocks,
            len: self.len,
        })
    }

    /// An equal table, which shares all blocks. So for n fragments it takes time and memory of n / 65,536.
    pub fn copy(&self, alloc: Global) -> Result<Stamps, AllocError>
        ensures { IfOk result (λ stamps. stamps ≡ self.now) }
    {
        let blocks = share(alloc, &self.blocks)?;
        Ok(Stamps {
            blocks,
            len: self.len,
        })
    }
}
