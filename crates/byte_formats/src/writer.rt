//! Writers of the fields.

ghost use Rattle.std.specs.Prelude.{◌≡◌, ◌<◌, ◌^◌, ◌++◌, length, OnOk};
ghost use Rattle.byte_formats.specs.Fields.{byte, count, sized, text, wide};

use byteorder::{BigEndian, ByteOrder};
use std::alloc::AllocError;

/// Appends a number of one byte.
pub fn put_kind(out: &mut Vec<u8>, kind: u8) -> Result<(), AllocError>
    ensures { OnOk result (out.new.items ≡ out.old.items ++ byte.spell kind) }
{
    out.push(kind)?;
    Ok(())
}

/// Appends a count or a length, in four bytes.
#[tactic(auto, unfolding(crate::specs::Fields::wide_bytes))]
pub fn put_count(out: &mut Vec<u8>, n: usize) -> Result<(), AllocError>
    requires { n < 2 ^ 32 }
    ensures { OnOk result (out.new.items ≡ out.old.items ++ count.spell n) }
{
    let mut bytes = [0; 4];
    BigEndian::write_u32(&mut bytes, n as u32);
    out.extend_from_slice(&bytes)
}

/// Appends a number in eight bytes, the highest first.
#[tactic(auto, unfolding(crate::specs::Fields::wide_bytes))]
pub fn put_long(out: &mut Vec<u8>, n: u64) -> Result<(), AllocError>
    ensures { OnOk result (out.new.items ≡ out.old.items ++ (wide 8).spell n) }
{
    let mut bytes = [0; 8];
    BigEndian::write_u64(&mut bytes, n);
    out.extend_from_slice(&bytes)
}

/// Appends bytes as they are.
pub fn put_mark(out: &mut Vec<u8>, bytes: &[u8]) -> Result<(), AllocError>
    ensures { OnOk result (out.new.items ≡ out.old.items ++ bytes.now) }
{
    out.extend_from_slice(bytes)
}

/// Appends bytes behind their length.
pub fn put_bytes(out: &mut Vec<u8>, bytes: &[u8]) -> Result<(), AllocError>
    requires { length bytes.now < 2 ^ 32 }
    ensures { OnOk result (out.new.items ≡ out.old.items ++ sized.spell bytes.now) }
{
    put_count(out, bytes.len())?;
    out.extend_from_slice(bytes)
}

/// Appends a text behind its length.
pub fn put_text(out: &mut Vec<u8>, value: &str) -> Result<(), AllocError>
    requires { length value.now < 2 ^ 32 }
    ensures { OnOk result (out.new.items ≡ out.old.items ++ text.spell value.now) }
{
    put_bytes(out, value.as_bytes())
}
