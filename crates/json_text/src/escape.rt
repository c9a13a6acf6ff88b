ghost use Rattle.std.specs.Prelude.{◌≡◌, ◌<◌, IfSome, IfOk, IsTrue, Some};
ghost use Rattle.std.specs.Option.{option_map};
ghost use Rattle.json_text.specs.Strings.{is_high, is_low, pair_value, short_escape};
ghost use Rattle.json_text.specs.Reading.{Tells, hex_of, hex_at, unit_at, low_at, char_at, escape_at};

use crate::fault::Fault;
use crate::scan::{unexpected, word};

fn hex_of(b: u8) -> Option<u8>
    ensures value { result ≡ hex_of b }
    ensures below { IfSome result (λ digit. digit < 16) }
{
    match b {
        b'0'..=b'9' => Some(b - b'0'),
        b'A'..=b'F' => Some(b - b'A' + 10),
        b'a'..=b'f' => Some(b - b'a' + 10),
        _ => None,
    }
}

#[tactic(auto, unfolding(crate::specs::Reading::hex_at))]
fn hex(bytes: &[u8]) -> Result<(u16, &[u8]), Fault>
    ensures value { Tells (λ x. (x.0, x.1.now)) result (hex_at bytes.now) }
    ensures below { IfOk result (λ x. x.0 < 16) }
{
    let [first, rest @ ..] = bytes else {
        return Err(unexpected(bytes));
    };
    match hex_of(*first) {
        Some(digit) => Ok((u16::from(digit), rest)),
        None => Err(unexpected(bytes)),
    }
}

/// The UTF-16 code unit of four hexadecimal digits.
#[tactic(auto, unfolding(crate::specs::Reading::unit_at))]
fn unit(bytes: &[u8]) -> Result<(u16, &[u8]), Fault>
    ensures { Tells (λ x. (x.0, x.1.now)) result (unit_at bytes.now) }
{
    let (a, rest) = hex(bytes)?;
    let (b, rest) = hex(rest)?;
    let (c, rest) = hex(rest)?;
    let (d, rest) = hex(rest)?;
    Ok((((a * 16 + b) * 16 + c) * 16 + d, rest))
}

fn is_high(unit: u16) -> bool
    ensures { result ≡ is_high unit }
{
    0xD800 <= unit && unit < 0xDC00
}

fn is_low(unit: u16) -> bool
    ensures { result ≡ is_low unit }
{
    0xDC00 <= unit && unit < 0xE000
}

/// The low surrogate whose whole escape stands at the front.
#[tactic(auto, unfolding(crate::specs::Reading::low_at))]
fn low(bytes: &[u8]) -> Option<(u16, &[u8])>
    ensures value { option_map (λ x. (x.0, x.1.now)) result ≡ low_at bytes.now }
    ensures is_low { IfSome result (λ x. IsTrue (is_low x.0)) }
{
    let rest = word(b"\\u", bytes).ok()?;
    let (unit, rest) = unit(rest).ok()?;
    if is_low(unit) {
        Some((unit, rest))
    } else {
        None
    }
}

/// The character of a surrogate pair.
fn pair(high: u16, low: u16) -> Option<char>
    requires high { IsTrue (is_high high) }
    requires low { IsTrue (is_low low) }
    ensures { result ≡ Some (pair_value high low) }
{
    char::from_u32(0x1_0000 + (u32::from(high) - 0xD800) * 0x400 + (u32::from(low) - 0xDC00))
}

/// The character of a code unit, together with its partner behind it where it is a surrogate.
#[tactic(auto, unfolding(crate::specs::Reading::char_at))]
fn char_of(unit: u16, bytes: &[u8]) -> Option<(char, &[u8])>
    ensures { option_map (λ x. (x.0, x.1.now)) result ≡ char_at unit bytes.now }
{
    if !is_high(unit) {
        return Some((char::from_u32(u32::from(unit))?, bytes));
    }
    let (low, rest) = low(bytes)?;
    Some((pair(unit, low)?, rest))
}

fn short_escape(letter: u8) -> Option<char>
    ensures { result ≡ short_escape letter }
{
    match letter {
        b'"' => Some('"'),
        b'\\' => Some('\\'),
        b'/' => Some('/'),
        b'b' => Some('\u{8}'),
        b'f' => Some('\u{C}'),
        b'n' => Some('\n'),
        b'r' => Some('\r'),
        b't' => Some('\t'),
        _ => None,
    }
}

/// The character of an escape, from behind its backslash on, where so many bytes are left from the backslash on.
#[tactic(auto, unfolding(crate::specs::Reading::escape_at))]
pub(crate) fn escape(left: usize, bytes: &[u8]) -> Result<(char, &[u8]), Fault>
    ensures { Tells (λ x. (x.0, x.1.now)) result (escape_at left bytes.now) }
{
    let [letter, rest @ ..] = bytes else {
        return Err(unexpected(bytes));
    };
    if *letter == b'u' {
        let (unit, rest) = unit(rest)?;
        return char_of(unit, rest).ok_or(Fault::Utf8(left));
    }
    match short_escape(*letter) {
        Some(c) => Ok((c, rest)),
        None => Err(unexpected(bytes)),
    }
}
