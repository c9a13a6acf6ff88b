//! The value that takes all of a body, or the place of its first truncated or invalid field.

ghost use Rattle.std.specs.Prelude.{◌≡◌, length};
ghost use Rattle.byte_formats.specs.Answers.{Gives, IsAmong, Returns};
ghost use Rattle.byte_formats.specs.Bodies.{field_of};
ghost use Rattle.byte_formats.specs.Format.{Read};
ghost use Rattle.byte_formats.specs.Whole.{all_of, at_place};

use crate::error::{BytesBad, DecodeError};
use crate::reader::Reader;

/// The value that takes all of a body of `len` bytes, or the place of the error.
///
/// A field that the body ends in is damaged at its first byte. Elsewhere bytes that end early are so at their length.
pub fn decoded_body<T: Drop>(
    len: usize,
    rest: &Reader,
    read: Result<T, DecodeError>,
) -> Result<T, BytesBad>
    requires { IsAmong len (length rest.now) read }
    ensures { (r : Read T) → Gives (λ x. (x, rest.now)) read r
        → Returns (λ x. x) result (at_place (field_of len) (all_of r)) }
{
    match read {
        Ok(x) => {
            if rest.left() > 0 {
                Err(BytesBad::Bad {
                    place: (len - rest.left()) as u64,
                })
            } else {
                Ok(x)
            }
        }
        Err(DecodeError::Memory) => Err(BytesBad::Memory),
        Err(DecodeError::Bad(error)) => Err(BytesBad::Bad {
            place: (len - error.left()) as u64,
        }),
    }
}
