//! Why a body wasn't decoded.

ghost use Rattle.std.specs.Prelude.{◌≤◌};
ghost use Rattle.journal_bodies.specs.Answers.{IsWithin, TellsStop};

use docs_format::{DecodeError, DocBytesBad};

/// Why a body wasn't decoded. The place is that of the first truncated or invalid field, or of the first byte after the
/// last field.
pub type BodyBad = DocBytesBad;

/// The error of a body of `len` bytes.
pub fn body_bad(len: usize, stop: DecodeError) -> BodyBad
    requires { IsWithin len stop }
    ensures { TellsStop len stop result }
{
    match stop {
        DecodeError::Memory => BodyBad::Memory,
        DecodeError::Bad(field) => BodyBad::Bad {
            place: (len - field.left()) as u64,
        },
    }
}
