//! A reader of the fields.

ghost use Rattle.byte_formats.specs.Answers.{Gives};
ghost use Rattle.byte_formats.specs.Lawful.{IsBytes};
ghost use Rattle.byte_formats.specs.Fields.{byte, count, mark as mark_format, raw, sized, text, wide};

use crate::error::{DecodeError, FieldError};
use byteorder::{BigEndian, ByteOrder};
use std::marker::Model;

/// Bytes that are read field by field from their front. Contracts see the bytes that are left.
///
/// After an error some of them were read; no contract says how many.
#[derive(Drop)]
pub struct Reader<'a> {
    rest: &'a [u8],
}

/// What the type of bytes says of them.
fn are_bytes(bytes: &[u8])
    ensures { IsBytes bytes.now }
{}

impl<'a> Model for Reader<'a> {
    ghost use Rattle.std.specs.Prelude.{List, ℕ};

    ghost Value = { List ℕ };

    ghost view = { λ reader. reader.rest.now };
}

impl<'a> Reader<'a> {
    ghost use Rattle.std.specs.Prelude.{◌≡◌, ◌+◌, ◌<◌, ◌^◌, length, take, drop, nat_lt};

    pub fn new(bytes: &'a [u8]) -> Reader<'a>
        ensures { result ≡ bytes.now }
    {
        Reader { rest: bytes }
    }

    /// How many bytes are left.
    pub fn left(&self) -> usize
        ensures { result ≡ length self.now }
    {
        self.rest.len()
    }

    /// Whether fewer bytes are left.
    pub fn is_short(&self, len: usize) -> bool
        ensures { result ≡ nat_lt (length self.now) len }
    {
        self.rest.len() < len
    }

    /// A reader of so many bytes, or of those that are there. This one goes on behind them.
    pub fn part(&mut self, len: usize) -> Reader<'a>
        ensures part { result ≡ take len self.old }
        ensures behind { self.new ≡ drop len self.old }
        ensures bytes { IsBytes result }
        ensures room { length result + length self.new < 2 ^ 64 }
    {
        let (part, rest) = self.rest.split_at(len.min(self.rest.len()));
        are_bytes(part);
        self.rest = rest;
        Reader { rest: part }
    }

    /// A number of one byte, as a kind.
    #[tactic(auto, unfolding(crate::specs::Fields::byte_at))]
    pub fn kind(&mut self) -> Result<u8, DecodeError>
        ensures { Gives (λ x. (x, self.new)) result (byte.read self.old) }
    {
        let Some((kind, rest)) = self.rest.split_first() else {
            return Err(DecodeError::Bad(FieldError::Truncated(0)));
        };
        self.rest = rest;
        Ok(*kind)
    }

    /// A count or a length, in four bytes.
    #[tactic(auto, unfolding(crate::specs::Fields::wide_at))]
    pub fn count(&mut self) -> Result<u32, DecodeError>
        ensures { Gives (λ x. (x, self.new)) result (count.read self.old) }
    {
        if self.rest.len() < 4 {
            return Err(DecodeError::Bad(FieldError::Truncated(self.rest.len())));
        }
        let count = BigEndian::read_u32(self.rest);
        self.rest = &self.rest[4..];
        Ok(count)
    }

    /// A number of eight bytes, the highest first.
    #[tactic(auto, unfolding(crate::specs::Fields::wide_at))]
    pub fn long(&mut self) -> Result<u64, DecodeError>
        ensures { Gives (λ x. (x, self.new)) result ((wide 8).read self.old) }
    {
        if self.rest.len() < 8 {
            return Err(DecodeError::Bad(FieldError::Truncated(self.rest.len())));
        }
        let number = BigEndian::read_u64(self.rest);
        self.rest = &self.rest[8..];
        Ok(number)
    }

    /// So many bytes, which aren't copied.
    #[tactic(auto, unfolding(crate::specs::Fields::raw_at))]
    pub fn raw(&mut self, len: usize) -> Result<&'a [u8], DecodeError>
        ensures { Gives (λ x. (x.now, self.new)) result ((raw len).read self.old) }
    {
        if self.rest.len() < len {
            return Err(DecodeError::Bad(FieldError::Truncated(self.rest.len())));
        }
        let (bytes, rest) = self.rest.split_at(len);
        self.rest = rest;
        Ok(bytes)
    }

    /// The bytes that a file begins with.
    pub fn mark(&mut self, mark: &[u8]) -> Result<(), DecodeError>
        ensures { Gives (λ x. (mark.now, self.new)) result ((mark_format mark.now).read self.old) }
    {
        let left = self.left();
        if mark == self.raw(mark.len())? {
            Ok(())
        } else {
            Err(DecodeError::Bad(FieldError::Invalid(left)))
        }
    }

    /// A length, and as many bytes, which aren't copied.
    #[tactic(auto, unfolding(crate::specs::Fields::sized_at))]
    pub fn bytes(&mut self) -> Result<&'a [u8], DecodeError>
        ensures { Gives (λ x. (x.now, self.new)) result (sized.read self.old) }
    {
        let left = self.left();
        let len = self.count()? as usize;
        if self.rest.len() < len {
            return Err(DecodeError::Bad(FieldError::Truncated(left)));
        }
        let (bytes, rest) = self.rest.split_at(len);
        self.rest = rest;
        Ok(bytes)
    }

    /// A text, which isn't copied.
    pub fn text(&mut self) -> Result<&'a str, DecodeError>
        ensures { Gives (λ x. (x.now, self.new)) result (text.read self.old) }
    {
        let left = self.left();
        match str::from_utf8(self.bytes()?) {
            Ok(text) => Ok(text),
            Err(_) => Err(DecodeError::Bad(FieldError::Invalid(left))),
        }
    }
}
