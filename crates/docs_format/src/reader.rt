ghost use Rattle.byte_formats.specs.Answers.{Gives};
ghost use Rattle.byte_formats.specs.Lawful.{IsBytes};
ghost use Rattle.docs_format.specs.Reading.{bytes_at, count_at, kind_at, number_at, text_at, units_at, uri_at};
ghost use Rattle.docs_format.specs.Reading.{wide_at};

use byte_formats::{DecodeError, FieldError};
use byteorder::{BigEndian, ByteOrder};
use doc_model::{Dec, is_uri};
use std::marker::Model;

/// Reads bytes field by field. Contracts see the bytes that are left.
///
/// After an error some bytes were read; no contract says how many.
#[derive(Drop)]
pub struct Reader<'a> {
    rest: &'a [u8],
}

/// What the type of bytes says of them.
fn are_bytes(bytes: &[u8])
    ensures { IsBytes bytes.now }
{}

impl<'a> Model for Reader<'a> {
    ghost use Rattle.std.specs.Prelude.{List, ℕ};

    ghost Value = { List ℕ };

    ghost view = { λ reader. reader.rest.now };
}

impl<'a> Reader<'a> {
    ghost use Rattle.std.specs.Prelude.{◌≡◌, length};

    pub fn new(bytes: &'a [u8]) -> Reader<'a>
        ensures { result ≡ bytes.now }
    {
        Reader { rest: bytes }
    }

    /// A second reader of the bytes that are left, to look ahead.
    pub fn ahead(&self) -> Reader<'a>
        ensures { result ≡ self.now }
    {
        Reader { rest: self.rest }
    }

    /// How many bytes are left.
    pub fn left(&self) -> usize
        ensures { result ≡ length self.now }
    {
        self.rest.len()
    }

    /// That each number is a byte. Costs nothing.
    pub fn are_bytes(&self)
        ensures { IsBytes self.now }
    {
        are_bytes(self.rest);
    }

    /// Reads a kind of one byte.
    #[tactic(auto, unfolding(crate::specs::Reading::kind_at))]
    pub fn kind(&mut self) -> Result<u8, DecodeError>
        ensures { Gives (λ x. (x, self.new)) result (kind_at self.old) }
    {
        let Some((kind, rest)) = self.rest.split_first() else {
            return Err(DecodeError::Bad(FieldError::Truncated(0)));
        };
        self.rest = rest;
        Ok(*kind)
    }

    /// Reads a count or a length of four bytes.
    #[tactic(auto, unfolding(crate::specs::Reading::count_at, crate::specs::Reading::wide_at))]
    pub fn count(&mut self) -> Result<u32, DecodeError>
        ensures { Gives (λ x. (x, self.new)) result (count_at self.old) }
    {
        if self.rest.len() < 4 {
            return Err(DecodeError::Bad(FieldError::Truncated(self.rest.len())));
        }
        let count = BigEndian::read_u32(self.rest);
        self.rest = &self.rest[4..];
        Ok(count)
    }

    /// Reads a number of eight bytes, big-endian.
    #[tactic(auto, unfolding(crate::specs::Reading::wide_at))]
    pub fn long(&mut self) -> Result<u64, DecodeError>
        ensures { Gives (λ x. (x, self.new)) result (wide_at 8 self.old) }
    {
        if self.rest.len() < 8 {
            return Err(DecodeError::Bad(FieldError::Truncated(self.rest.len())));
        }
        let number = BigEndian::read_u64(self.rest);
        self.rest = &self.rest[8..];
        Ok(number)
    }

    /// Reads a number of sixteen bytes in two's complement.
    #[tactic(auto, unfolding(crate::specs::Reading::units_at, crate::specs::Reading::wide_at))]
    fn units(&mut self) -> Result<i128, DecodeError>
        ensures { Gives (λ x. (x, self.new)) result (units_at self.old) }
    {
        if self.rest.len() < 16 {
            return Err(DecodeError::Bad(FieldError::Truncated(self.rest.len())));
        }
        let units = BigEndian::read_i128(self.rest);
        self.rest = &self.rest[16..];
        Ok(units)
    }

    #[tactic(auto, unfolding(crate::specs::Reading::number_at))]
    pub fn number(&mut self) -> Result<Dec, DecodeError>
        ensures { Gives (λ x. (x, self.new)) result (number_at self.old) }
    {
        let left = self.left();
        match Dec::of_units(self.units()?) {
            Some(number) => Ok(number),
            None => Err(DecodeError::Bad(FieldError::Invalid(left))),
        }
    }

    /// Reads a length, and as many bytes.
    #[tactic(auto, unfolding(crate::specs::Reading::bytes_at))]
    fn bytes(&mut self) -> Result<&'a [u8], DecodeError>
        ensures { Gives (λ x. (x.now, self.new)) result (bytes_at self.old) }
    {
        let left = self.left();
        let len = self.count()? as usize;
        if self.rest.len() < len {
            return Err(DecodeError::Bad(FieldError::Truncated(left)));
        }
        let (bytes, rest) = self.rest.split_at(len);
        self.rest = rest;
        Ok(bytes)
    }

    /// Reads a text without copying it.
    #[tactic(auto, unfolding(crate::specs::Reading::text_at))]
    pub fn text(&mut self) -> Result<&'a str, DecodeError>
        ensures { Gives (λ x. (x.now, self.new)) result (text_at self.old) }
    {
        let left = self.left();
        match str::from_utf8(self.bytes()?) {
            Ok(text) => Ok(text),
            Err(_) => Err(DecodeError::Bad(FieldError::Invalid(left))),
        }
    }

    #[tactic(auto, unfolding(crate::specs::Reading::uri_at))]
    pub fn uri(&mut self) -> Result<&'a str, DecodeError>
        ensures { Gives (λ x. (x.now, self.new)) result (uri_at self.old) }
    {
        let left = self.left();
        let uri = self.text()?;
        if is_uri(uri) {
            Ok(uri)
        } else {
            Err(DecodeError::Bad(FieldError::Invalid(left)))
        }
    }
}
