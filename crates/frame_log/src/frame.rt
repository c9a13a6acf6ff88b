//! A body, framed.

ghost use Rattle.std.specs.Prelude.{◌≡◌, ◌+◌, [], ◌∷◌, ◌++◌, length, IfOk};

use std::alloc::{AllocError, Global};
use std::marker::Model;

/// The byte of an open gate. A frame follows it: the length of its body as eight bytes, the highest first, and the
/// body. Every other byte is a closed gate, which ends the log.
pub const OPEN: u8 = 0x4F;

/// The byte that is written as a closed gate.
pub const CLOSED: u8 = 0;

/// A body, as a log appends it: its length before it and a closed gate behind it.
#[derive(Debug, Drop)]
pub struct Frame {
    bytes: Vec<u8>,
}

impl Model for Frame {
    ghost use Rattle.std.specs.Prelude.{◌≡◌, ◌-◌, ℕ, List, [], ◌∷◌, ◌++◌, length, take, drop};
    ghost use Rattle.frame_log.specs.Frames.{sized};
    ghost use Rattle.frame_log.specs.declared.frame.TheConstants.{CLOSED};

    ghost Value = { List ℕ };

    ghost view = { λ f. take (length f.bytes.items - 9) (drop 8 f.bytes.items) };

    ghost invariant = { λ f.
        f.bytes.items ≡ sized (take (length f.bytes.items - 9) (drop 8 f.bytes.items)) ++ CLOSED ∷ [] };
}

impl Frame {
    ghost use Rattle.frame_log.specs.Frames.{sized};

    /// The frame of a body, at the cost of a copy of it.
    pub fn of(alloc: Global, body: &[u8]) -> Result<Frame, AllocError>
        ensures { IfOk result (λ frame. frame ≡ body.now) }
    {
        let mut bytes = Vec::with_capacity(alloc, body.len().saturating_add(9))?;
        bytes.extend_from_slice(&(body.len() as u64).to_be_bytes())?;
        bytes.extend_from_slice(body)?;
        bytes.push(CLOSED)?;
        Ok(Frame { bytes })
    }

    // The bytes that a log writes behind its gate.
    pub(crate) fn bytes(&self) -> &[u8]
        ensures bytes { result.now ≡ sized self.now ++ CLOSED ∷ [] }
        ensures len { length result.now ≡ 9 + length self.now }
    {
        &self.bytes
    }
}
