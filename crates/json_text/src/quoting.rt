ghost use Rattle.std.specs.Prelude.{◌≡◌, ◌<◌, ◌++◌, ◌∷◌, [], false, length, OnOk, IfSome, MatchOption, IsTrue, string_bytes};
ghost use Rattle.std.specs.Str.{is_utf8};
ghost use Rattle.json_text.specs.Strings.{is_plain};
ghost use Rattle.json_text.specs.Canonical.{low_hex, coded, escaped, escaped_text, quoted};

use crate::plain::run_len;
use doc_model::Text;
use std::alloc::AllocError;

/// Appends an ASCII character.
pub(crate) fn put_ascii(out: &mut String, byte: u8) -> Result<(), AllocError>
    requires { byte < 128 }
    ensures { OnOk result (string_bytes out.new ≡ string_bytes out.old ++ byte ∷ []) }
{
    out.push(char::from(byte))
}

fn low_hex(digit: u8) -> u8
    requires { digit < 16 }
    ensures value { result ≡ low_hex digit }
    ensures ascii { result < 128 }
{
    if digit < 10 {
        b'0' + digit
    } else {
        b'W' + digit
    }
}

/// Appends the escape of a control character by its code.
fn put_control(out: &mut String, code: u8) -> Result<(), AllocError>
    requires { code < 32 }
    ensures { OnOk result (string_bytes out.new ≡ string_bytes out.old ++ coded code) }
{
    out.push_str("\\u00")?;
    put_ascii(out, low_hex(code / 16))?;
    put_ascii(out, low_hex(code % 16))
}

/// Appends the escape of a byte that can't stand in a string as it is.
fn put_escape(out: &mut String, byte: u8) -> Result<(), AllocError>
    requires { is_plain byte ≡ false }
    ensures { OnOk result (string_bytes out.new ≡ string_bytes out.old ++ escaped byte) }
{
    match byte {
        b'"' => out.push_str("\\\""),
        b'\\' => out.push_str("\\\\"),
        b'\x08' => out.push_str("\\b"),
        b'\t' => out.push_str("\\t"),
        b'\n' => out.push_str("\\n"),
        b'\x0c' => out.push_str("\\f"),
        b'\r' => out.push_str("\\r"),
        _ => put_control(out, byte),
    }
}

/// What is in front of the first byte that needs an escape, that byte, and what is behind it.
fn split_escape(text: &str) -> Option<(&str, u8, &str)>
    ensures parts { MatchOption result (escaped_text text.now ≡ text.now) (λ x. escaped_text text.now ≡ x.0.now ++ escaped x.1 ++ escaped_text x.2.now) }
    ensures byte { IfSome result (λ x. is_plain x.1 ≡ false) }
    ensures shorter { IfSome result (λ x. length x.2.now < length text.now) }
{
    let (run, rest) = text.split_at(run_len(text.as_bytes()));
    match rest.as_bytes() {
        [byte, ..] => Some((run, *byte, &rest[1..])),
        [] => None,
    }
}

/// Appends the characters of a text, as a string. What needs no escape is copied in runs.
fn put_quoted(out: &mut String, text: &str) -> Result<(), AllocError>
    ensures { OnOk result (string_bytes out.new ≡ string_bytes out.old ++ quoted text.now) }
{
    put_ascii(out, b'"')?;
    let mut rest = text;
    while let Some((run, byte, behind)) = split_escape(rest) {
        out.push_str(run)?;
        put_escape(out, byte)?;
        rest = behind;
    }
    out.push_str(rest)?;
    put_ascii(out, b'"')
}

/// Appends a text, as a string.
pub(crate) fn put_text(out: &mut String, text: &Text) -> Result<(), AllocError>
    ensures written { OnOk result (string_bytes out.new ≡ string_bytes out.old ++ quoted text.now) }
    ensures utf8 { IsTrue (is_utf8 text.now) }
{
    put_quoted(out, text.as_str())
}
