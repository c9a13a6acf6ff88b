//! Numbers as unsigned LEB128.

ghost use Rattle.std.specs.Prelude.{◌≡◌, ◌<◌, ◌≤◌, ◌^◌, ◌++◌, IfSome, OnOk};
ghost use Rattle.post_lists.specs.Numbers.{Finds, digits_at};
ghost use Rattle.post_lists.specs.Postings.{digits, number};

use std::alloc::AllocError;

/// The bytes of the longest number that is read.
const LONGEST: u32 = 5;

/// Reads the number at the front, and lends the bytes behind it. Returns nothing if no number in its shortest form is
/// there.
pub fn number_at(bytes: &[u8]) -> Option<(u64, &[u8])>
    ensures read { Finds result (digits_at 5 bytes.now) }
    ensures below { IfSome result (λ found. found.0 < 2 ^ 35) }
{
    digits_at(bytes, LONGEST)
}

#[tactic(auto, unfolding(crate::specs::Numbers::digits_at))]
fn digits_at(bytes: &[u8], most: u32) -> Option<(u64, &[u8])>
    requires { most ≤ 5 }
    ensures read { Finds result (digits_at most bytes.now) }
    ensures below { IfSome result (λ found. found.0 < 128 ^ most) }
{
    if most == 0 {
        return None;
    }
    let (low, rest) = bytes.split_first()?;
    if *low < 128 {
        return Some((u64::from(*low), rest));
    }
    let (high, rest) = digits_at(rest, most - 1)?;
    if high == 0 {
        return None;
    }
    Some((u64::from(*low % 128) + 128 * high, rest))
}

/// Appends a number in its shortest form. After an `Err` some of its bytes may be there.
pub fn put_number(out: &mut Vec<u8>, n: u32) -> Result<(), AllocError>
    ensures { OnOk result (out.new.items ≡ out.old.items ++ number n) }
{
    put_digits(out, n, LONGEST)
}

fn put_digits(out: &mut Vec<u8>, n: u32, most: u32) -> Result<(), AllocError>
    requires most { 1 ≤ most }
    requires below { n < 128 ^ most }
    ensures { OnOk result (out.new.items ≡ out.old.items ++ digits most n) }
{
    if n < 128 {
        out.push(n as u8)?;
        return Ok(());
    }
    out.push((128 + n % 128) as u8)?;
    put_digits(out, n / 128, most - 1)
}
