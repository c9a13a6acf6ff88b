ghost use Rattle.std.specs.Prelude.{◌≡◌, ◌≤◌, length, drop};
ghost use Rattle.std.specs.List.{prefix_len};
ghost use Rattle.std.specs.Option.{option_map};
ghost use Rattle.json_text.specs.Grammar.{is_white};
ghost use Rattle.json_text.specs.Numbers.{is_digit};
ghost use Rattle.json_text.specs.Strings.{is_plain};
ghost use Rattle.json_text.specs.Reading.{Tells, behind_white, unexpected, strip, byte_at, word_at};

use crate::fault::Fault;

fn is_white(b: u8) -> bool
    ensures { result ≡ is_white b }
{
    b == b' ' || b == b'\t' || b == b'\n' || b == b'\r'
}

fn is_digit(b: u8) -> bool
    ensures { result ≡ is_digit b }
{
    b'0' <= b && b <= b'9'
}

fn is_plain(b: u8) -> bool
    ensures { result ≡ is_plain b }
{
    0x20 <= b && b != b'"' && b != b'\\'
}

fn white_len(bytes: &[u8]) -> usize
    ensures value { result ≡ prefix_len is_white bytes.now }
    ensures within { result ≤ length bytes.now }
{
    for (i, byte) in bytes.iter().enumerate() {
        if !is_white(*byte) {
            return i;
        }
    }
    bytes.len()
}

/// How many bytes from the front on are digits.
pub(crate) fn digits_len(bytes: &[u8]) -> usize
    ensures value { result ≡ prefix_len is_digit bytes.now }
    ensures within { result ≤ length bytes.now }
{
    for (i, byte) in bytes.iter().enumerate() {
        if !is_digit(*byte) {
            return i;
        }
    }
    bytes.len()
}

/// How many bytes from the front on are characters of a string that aren't escaped.
pub(crate) fn plain_len(bytes: &[u8]) -> usize
    ensures value { result ≡ prefix_len is_plain bytes.now }
    ensures within { result ≤ length bytes.now }
{
    for (i, byte) in bytes.iter().enumerate() {
        if !is_plain(*byte) {
            return i;
        }
    }
    bytes.len()
}

pub(crate) fn behind_white(bytes: &[u8]) -> &[u8]
    ensures { result.now ≡ behind_white bytes.now }
{
    let (_, rest) = bytes.split_at(white_len(bytes));
    rest
}

/// The fault of bytes that can't go on so. It looks through all of them, and is asked for once.
pub(crate) fn unexpected(bytes: &[u8]) -> Fault
    ensures { result ≡ unexpected bytes.now }
{
    match str::from_utf8(bytes) {
        Err(e) if e.valid_up_to() == 0 => Fault::Utf8(bytes.len()),
        _ => Fault::Syntax(bytes.len()),
    }
}

/// What is behind this byte, where it stands at the front.
pub(crate) fn strip(wanted: u8, bytes: &[u8]) -> Option<&[u8]>
    ensures { option_map (λ x. x.now) result ≡ strip wanted bytes.now }
{
    match bytes {
        [first, rest @ ..] if *first == wanted => Some(rest),
        _ => None,
    }
}

pub(crate) fn byte(wanted: u8, bytes: &[u8]) -> Result<&[u8], Fault>
    ensures { Tells (λ x. x.now) result (byte_at wanted bytes.now) }
{
    match strip(wanted, bytes) {
        Some(rest) => Ok(rest),
        None => Err(unexpected(bytes)),
    }
}

pub(crate) fn word<'a>(wanted: &[u8], bytes: &'a [u8]) -> Result<&'a [u8], Fault>
    ensures { Tells (λ x. x.now) result (word_at wanted.now bytes.now) }
{
    let mut rest = bytes;
    for b in wanted {
        rest = byte(*b, rest)?;
    }
    Ok(rest)
}
