//! The result for a part of the bytes, or for all of them, from what was read of them.

ghost use Rattle.std.specs.Prelude.{◌≡◌, ◌+◌, ◌<◌, ◌^◌, ◌≤◌, List, ℕ, length, IfOk, Ok};
ghost use Rattle.byte_formats.specs.Answers.{Returns, Gives, IsAmong};
ghost use Rattle.byte_formats.specs.Format.{Read, at_front, fence};
ghost use Rattle.byte_formats.specs.Whole.{all_of, at_place, place_of};

use crate::error::{BytesBad, DecodeError, FieldError, place_of};
use crate::reader::Reader;

/// What was read, as one field that began where `left` bytes were left.
pub fn single<T>(left: usize, read: Result<T, DecodeError>) -> Result<T, DecodeError>
    ensures read { (rest : List ℕ) (r : Read T) → Gives (λ x. (x, rest)) read r
        → Gives (λ x. (x, rest)) result (at_front left r) }
    ensures value { IfOk result (λ x. read ≡ Ok x) }
{
    match read {
        Ok(x) => Ok(x),
        Err(DecodeError::Memory) => Err(DecodeError::Memory),
        Err(DecodeError::Bad(FieldError::Truncated(_))) => Err(DecodeError::Bad(
            FieldError::Truncated(left),
        )),
        Err(DecodeError::Bad(FieldError::Invalid(_))) => Err(DecodeError::Bad(FieldError::Invalid(
            left,
        ))),
    }
}

/// What was read of a part of `len` bytes, all of which it must take. The part is short if the bytes end before it
/// does.
pub fn closed<T: Drop>(
    len: usize,
    short: bool,
    part: &Reader,
    behind: &Reader,
    read: Result<T, DecodeError>,
) -> Result<T, DecodeError>
    requires among { IsAmong len (length part.now) read }
    requires room { len + length behind.now < 2 ^ 64 }
    ensures { (r : Read T) → Gives (λ x. (x, part.now)) read r
        → Gives (λ x. (x, behind.now)) result (fence short behind.now r) }
{
    let after = behind.left();
    match read {
        Ok(x) => {
            if part.left() > 0 {
                Err(DecodeError::Bad(FieldError::Invalid(part.left() + after)))
            } else if short {
                Err(DecodeError::Bad(FieldError::Truncated(0)))
            } else {
                Ok(x)
            }
        }
        Err(DecodeError::Memory) => Err(DecodeError::Memory),
        Err(DecodeError::Bad(FieldError::Invalid(left))) => Err(DecodeError::Bad(
            FieldError::Invalid(left + after),
        )),
        Err(DecodeError::Bad(FieldError::Truncated(left))) => {
            if short {
                Err(DecodeError::Bad(FieldError::Truncated(left)))
            } else {
                Err(DecodeError::Bad(FieldError::Invalid(left + after)))
            }
        }
    }
}

/// The value that takes all of so many bytes, or the place of the error.
pub fn decoded<T: Drop>(
    len: usize,
    rest: &Reader,
    read: Result<T, DecodeError>,
) -> Result<T, BytesBad>
    requires { IsAmong len (length rest.now) read }
    ensures { (r : Read T) → Gives (λ x. (x, rest.now)) read r
        → Returns (λ x. x) result (at_place (place_of len) (all_of r)) }
{
    match read {
        Ok(x) => {
            if rest.left() > 0 {
                Err(BytesBad::Bad {
                    place: place_of(len, FieldError::Invalid(rest.left())),
                })
            } else {
                Ok(x)
            }
        }
        Err(DecodeError::Memory) => Err(BytesBad::Memory),
        Err(DecodeError::Bad(error)) => Err(BytesBad::Bad {
            place: place_of(len, error),
        }),
    }
}
