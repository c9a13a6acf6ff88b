ghost use Rattle.std.specs.Prelude.{◌≡◌, ◌≢◌, ◌≤◌, ◌<◌, ◌+◌, ℕ, length, take, IfSome, MatchOption};
ghost use Rattle.client_lines.specs.Rows.{IsOfKind, IsTimestamp, IsNext};

use crate::row::WordKind;
use doc_meaning::LAST_TIMESTAMP;

impl WordKind {
    /// The length of the longest beginning that is of this kind, 0 where there is none.
    pub(crate) fn end(self, bytes: &[u8]) -> usize
        ensures most { result ≤ length bytes.now }
        ensures is { 0 < result → IsOfKind self (take result bytes.now) }
        ensures longest { (more : ℕ) → result < more → more ≤ length bytes.now →
            IsOfKind self (take more bytes.now) → ⊥ }
    {
        match self {
            WordKind::Word => word_end(bytes),
            WordKind::Timestamp => timestamp_end(bytes),
        }
    }
}

fn word_end(bytes: &[u8]) -> usize
    ensures most { result ≤ length bytes.now }
    ensures is { 0 < result → IsOfKind WordKind.Word (take result bytes.now) }
    ensures longest { (more : ℕ) → result < more → more ≤ length bytes.now →
        IsOfKind WordKind.Word (take more bytes.now) → ⊥ }
{
    for (i, byte) in bytes.iter().enumerate() {
        if *byte == b' ' {
            return i;
        }
    }
    bytes.len()
}

fn timestamp_end(bytes: &[u8]) -> usize
    ensures most { result ≤ length bytes.now }
    ensures is { 0 < result → IsTimestamp (take result bytes.now) }
    ensures longest { (more : ℕ) → result < more → more ≤ length bytes.now → IsTimestamp (take more bytes.now) → ⊥ }
{
    let mut value = None;
    for (i, byte) in bytes.iter().enumerate() {
        let Some(next) = with_digit(value, *byte) else {
            return i;
        };
        value = Some(next);
    }
    bytes.len()
}

// The timestamp of the digits so far and one more, if they are one.
fn with_digit(value: Option<u64>, byte: u8) -> Option<u64>
    requires { IfSome value (λ v. v ≤ LAST_TIMESTAMP) }
    ensures { IsNext value byte result }
{
    if !byte.is_ascii_digit() {
        return None;
    }
    let digit = u64::from(byte - b'0');
    let Some(value) = value else {
        return Some(digit);
    };
    if value == 0 {
        return None;
    }
    not_past(value * 10 + digit)
}

fn not_past(value: u64) -> Option<u64>
    ensures { MatchOption result (LAST_TIMESTAMP < value) (λ v. (v ≡ value) × (v ≤ LAST_TIMESTAMP)) }
{
    if value <= LAST_TIMESTAMP {
        Some(value)
    } else {
        None
    }
}
