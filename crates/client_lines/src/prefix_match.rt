ghost use Rattle.std.specs.Prelude.{◌≡◌, ◌∷◌, [], ◌^◌, ◌+◌, ◌↔◌, IsTrue, Some, false, ◌≤◌, ◌<◌, ℕ, List, length};
ghost use Rattle.std.specs.Prelude.{take, slice_index, min, max, ◌||◌};
ghost use Rattle.client_lines.specs.Rows.{Behind, Matches, MatchesSome, IsTail, IsLast, IsOfRow, IsOfSome};

use crate::row::{Last, Row, WordKind};
use crate::scan::strip;

/// How far a line matches a row.
#[derive(Clone, Copy)]
pub(crate) struct PrefixMatch {
    /// The length of its longest prefix that begins a line of the row.
    pub(crate) count: usize,
    /// Whether it is a line of the row.
    pub(crate) whole: bool,
}

impl PrefixMatch {
    // A match that ends here.
    fn stopped(count: usize) -> PrefixMatch
        ensures count { result.count ≡ count }
        ensures whole { result.whole ≡ false }
    {
        PrefixMatch {
            count,
            whole: false,
        }
    }

    // The match behind so many more bytes.
    fn after(self, count: usize) -> PrefixMatch
        requires { self.count + count < 2 ^ 64 }
        ensures count { result.count ≡ count + self.count }
        ensures whole { result.whole ≡ self.whole }
    {
        PrefixMatch {
            count: count + self.count,
            whole: self.whole,
        }
    }

    // The longer of two matches.
    pub(crate) fn or(self, other: PrefixMatch) -> PrefixMatch
        ensures count { result.count ≡ max self.count other.count }
        ensures whole { result.whole ≡ (self.whole || other.whole) }
    {
        PrefixMatch {
            count: self.count.max(other.count),
            whole: self.whole || other.whole,
        }
    }
}

/// How far a line matches some of the rows.
pub(crate) fn match_rows(rows: &[Row<'_>], line: &[u8]) -> PrefixMatch
    ensures { MatchesSome (IsOfSome rows.now) line.now result }
{
    let mut prefix_match = PrefixMatch::stopped(0);
    for row in rows {
        prefix_match = prefix_match.or(match_row(row, line));
    }
    prefix_match
}

fn match_row(row: &Row<'_>, line: &[u8]) -> PrefixMatch
    ensures { Matches (IsOfRow row.now) line.now result }
{
    let same = common_len(row.head, line);
    if same < row.head.len() {
        return PrefixMatch::stopped(same);
    }
    match_tail(row.middle, row.last, &line[same..]).after(same)
}

fn match_tail(middle: Option<WordKind>, last: Last, bytes: &[u8]) -> PrefixMatch
    ensures { Matches (IsTail middle last) bytes.now result }
{
    match middle {
        None => match_last(last, bytes),
        Some(word_kind) => match_spaced(word_kind, last, bytes),
    }
}

fn match_spaced(word_kind: WordKind, last: Last, bytes: &[u8]) -> PrefixMatch
    ensures { Matches (IsTail (Some word_kind) last) bytes.now result }
{
    let end = word_kind.end(bytes);
    if end == 0 {
        return PrefixMatch::stopped(0);
    }
    behind_space(last, &bytes[end..]).after(end)
}

fn behind_space(last: Last, bytes: &[u8]) -> PrefixMatch
    ensures { Matches (Behind (0x20 ∷ []) (IsLast last)) bytes.now result }
{
    match strip(bytes, b" ") {
        Some(rest) => match_last(last, rest).after(1),
        None => PrefixMatch::stopped(0),
    }
}

fn match_last(last: Last, bytes: &[u8]) -> PrefixMatch
    ensures { Matches (IsLast last) bytes.now result }
{
    match last {
        Last::Nothing => PrefixMatch {
            count: 0,
            whole: bytes.is_empty(),
        },
        Last::Whole(word_kind) => {
            let count = word_kind.end(bytes);
            let whole = is_all(count, bytes);
            PrefixMatch { count, whole }
        }
        Last::Rest => PrefixMatch {
            count: bytes.len(),
            whole: true,
        },
    }
}

// Whether that count is that of all bytes, and there are some.
fn is_all(count: usize, bytes: &[u8]) -> bool
    ensures { IsTrue result ↔ ((0 < count) × (count ≡ length bytes.now)) }
{
    count > 0 && count == bytes.len()
}

fn common_len(head: &[u8], line: &[u8]) -> usize
    ensures within { result ≤ min (length head.now) (length line.now) }
    ensures same { take result line.now ≡ take result head.now }
    ensures stop { result < length head.now → result < length line.now →
        slice_index line.now result ≡ slice_index head.now result → ⊥ }
{
    let most = head.len().min(line.len());
    for i in 0..most {
        if head[i] != line[i] {
            return i;
        }
    }
    most
}
