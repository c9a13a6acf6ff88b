//! Unsigned LEB128.

ghost use Rattle.std.specs.Prelude.{◌≡◌, ◌<◌, ◌≤◌, ◌^◌, ◌++◌, IfOk, OnOk};
ghost use Rattle.byte_formats.specs.Answers.{Gives};
ghost use Rattle.byte_formats.specs.Leb.{digits, leb};

use crate::error::{DecodeError, FieldError};
use crate::parts::single;
use crate::reader::Reader;
use std::alloc::AllocError;

const MOST: u32 = 5;

/// A number of at most five bytes, in its shortest form.
impl<'a> Reader<'a> {
    #[tactic(auto, unfolding(crate::specs::Leb::leb))]
    pub fn leb(&mut self) -> Result<u64, DecodeError>
        ensures read { Gives (λ x. (x, self.new)) result (leb.read self.old) }
        ensures below { IfOk result (λ n. n < 2 ^ 35) }
    {
        let left = self.left();
        let read = digits(self, MOST);
        single(left, read)
    }
}

#[tactic(auto, unfolding(crate::specs::Leb::digits))]
fn digits(reader: &mut Reader, most: u32) -> Result<u64, DecodeError>
    requires { most ≤ 5 }
    ensures read { Gives (λ x. (x, reader.new)) result ((digits most).read reader.old) }
    ensures below { IfOk result (λ n. n < 128 ^ most) }
{
    let left = reader.left();
    if most == 0 {
        return Err(DecodeError::Bad(FieldError::Invalid(left)));
    }
    let low = reader.kind()?;
    if low < 128 {
        return Ok(u64::from(low));
    }
    let left = reader.left();
    let high = digits(reader, most - 1)?;
    if high == 0 {
        return Err(DecodeError::Bad(FieldError::Invalid(left)));
    }
    Ok(u64::from(low % 128) + 128 * high)
}

/// Appends a number in its shortest form.
#[tactic(auto, unfolding(crate::specs::Leb::leb))]
pub fn put_leb(out: &mut Vec<u8>, n: u64) -> Result<(), AllocError>
    requires { n < 2 ^ 35 }
    ensures { OnOk result (out.new.items ≡ out.old.items ++ leb.spell n) }
{
    put_digits(out, n, MOST)
}

#[tactic(auto, unfolding(crate::specs::Leb::digits))]
fn put_digits(out: &mut Vec<u8>, n: u64, most: u32) -> Result<(), AllocError>
    requires most { 1 ≤ most }
    requires below { n < 128 ^ most }
    ensures { OnOk result (out.new.items ≡ out.old.items ++ (digits most).spell n) }
{
    if n < 128 {
        out.push(n as u8)?;
        return Ok(());
    }
    out.push((128 + n % 128) as u8)?;
    put_digits(out, n / 128, most - 1)
}
