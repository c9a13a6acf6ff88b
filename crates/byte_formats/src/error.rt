//! Why bytes weren't decoded.

ghost use Rattle.std.specs.Prelude.{◌≡◌, ◌≤◌};
ghost use Rattle.byte_formats.specs.declared.error.DecodeError.TheVariants.{Memory};
ghost use Rattle.byte_formats.specs.Format.{left_of};
ghost use Rattle.byte_formats.specs.Whole.{place_of};

use std::alloc::{AllocError, AllocFailed};
use thiserror::Error;

/// Why bytes weren't decoded.
#[derive(Clone, Copy, Debug, PartialEq, Eq, Error)]
pub enum BytesBad {
    /// The bytes break their format at this place. It is the first byte of the first invalid field, or the first byte
    /// too many. Where the bytes end early it is their length, or for a body the first byte of the truncated field.
    #[error("the bytes break their format at {place}")]
    Bad { place: u64 },
    #[error("out of memory")]
    Memory,
}

/// The field that has an error, by how many bytes are left from its first byte on.
#[derive(Clone, Copy, Debug, PartialEq, Eq, Error)]
pub enum FieldError {
    /// The bytes end inside the field, or before it.
    #[error("the bytes end inside a field, {0} bytes behind its first one")]
    Truncated(usize),
    /// The field is complete and invalid.
    #[error("the field that begins {0} bytes before the end is invalid")]
    Invalid(usize),
}

impl FieldError {
    /// How many bytes are left from the first byte of the field on.
    pub fn left(self) -> usize
        ensures { result ≡ left_of self }
    {
        match self {
            FieldError::Truncated(left) => left,
            FieldError::Invalid(left) => left,
        }
    }
}

/// Why a field wasn't read.
#[derive(Clone, Copy, Debug, PartialEq, Eq, Error)]
pub enum DecodeError {
    #[error("out of memory")]
    Memory,
    #[error(transparent)]
    Bad(FieldError),
}

/// The place of an error in `len` bytes: `len` if they end early.
pub fn place_of(len: usize, error: FieldError) -> u64
    requires { left_of error ≤ len }
    ensures { result ≡ place_of len error }
{
    match error {
        FieldError::Truncated(_) => len as u64,
        FieldError::Invalid(left) => (len - left) as u64,
    }
}

impl From<AllocError> for DecodeError {
    ghost from_gives = { λ _ error. error ≡ Memory };

    fn from(_e: AllocError) -> DecodeError {
        DecodeError::Memory
    }
}

impl<T: Drop> From<AllocFailed<T>> for DecodeError {
    ghost from_gives = { λ _ error. error ≡ Memory };

    fn from(_e: AllocFailed<T>) -> DecodeError {
        DecodeError::Memory
    }
}
