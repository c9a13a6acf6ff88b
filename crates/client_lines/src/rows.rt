ghost use Rattle.std.specs.Prelude.{◌≡◌, ◌<◌};
ghost use Rattle.client_lines.specs.Rows.{MatchesSome};
ghost use Rattle.client_lines.specs.LineForms.{IsLaterText, IsAnsweredText};

use crate::prefix_match::{PrefixMatch, match_rows};
use crate::row::{Last, Row, WordKind};

/// The forms that read at a timestamp.
const AT: [Row<'static>; 3] = [
    Row {
        head: b"get at ",
        middle: Some(WordKind::Timestamp),
        last: Last::Whole(WordKind::Word),
    },
    Row {
        head: b"search at ",
        middle: Some(WordKind::Timestamp),
        last: Last::Rest,
    },
    Row {
        head: b"estimate at ",
        middle: Some(WordKind::Timestamp),
        last: Last::Rest,
    },
];

/// The forms that read at the pin.
const PINNED: [Row<'static>; 3] = [
    Row {
        head: b"get pinned ",
        middle: None,
        last: Last::Whole(WordKind::Word),
    },
    Row {
        head: b"search pinned ",
        middle: None,
        last: Last::Rest,
    },
    Row {
        head: b"estimate pinned ",
        middle: None,
        last: Last::Rest,
    },
];

/// The other forms that aren't answered yet.
const OTHERS: [Row<'static>; 8] = [
    Row {
        head: b"commit ",
        middle: None,
        last: Last::Rest,
    },
    Row {
        head: b"estimate ",
        middle: None,
        last: Last::Rest,
    },
    Row {
        head: b"forget ",
        middle: None,
        last: Last::Whole(WordKind::Timestamp),
    },
    Row {
        head: b"pin",
        middle: None,
        last: Last::Nothing,
    },
    Row {
        head: b"unpin",
        middle: None,
        last: Last::Nothing,
    },
    Row {
        head: b"save",
        middle: None,
        last: Last::Nothing,
    },
    Row {
        head: b"merge",
        middle: None,
        last: Last::Nothing,
    },
    Row {
        head: b"revive",
        middle: None,
        last: Last::Nothing,
    },
];

/// The forms that are answered.
const ANSWERED: [Row<'static>; 6] = [
    Row {
        head: b"put ",
        middle: Some(WordKind::Word),
        last: Last::Rest,
    },
    Row {
        head: b"remove ",
        middle: None,
        last: Last::Whole(WordKind::Word),
    },
    Row {
        head: b"get ",
        middle: None,
        last: Last::Whole(WordKind::Word),
    },
    Row {
        head: b"search ",
        middle: None,
        last: Last::Rest,
    },
    Row {
        head: b"stamp",
        middle: None,
        last: Last::Nothing,
    },
    Row {
        head: b"quit",
        middle: None,
        last: Last::Nothing,
    },
];

/// How far a line matches the forms that read at a timestamp.
pub(crate) fn match_at(line: &[u8]) -> PrefixMatch
    ensures { MatchesSome (IsLaterText (λ n. n ≡ 3)) line.now result }
{
    match_rows(&AT, line)
}

/// How far a line matches the forms that read at the pin.
pub(crate) fn match_pinned(line: &[u8]) -> PrefixMatch
    ensures { MatchesSome (IsLaterText (λ n. n ≡ 2)) line.now result }
{
    match_rows(&PINNED, line)
}

/// How far a line matches the other forms that aren't answered yet.
pub(crate) fn match_others(line: &[u8]) -> PrefixMatch
    ensures { MatchesSome (IsLaterText (λ n. n < 2)) line.now result }
{
    match_rows(&OTHERS, line)
}

/// How far a line matches the forms that are answered.
pub(crate) fn match_answered(line: &[u8]) -> PrefixMatch
    ensures { MatchesSome IsAnsweredText line.now result }
{
    match_rows(&ANSWERED, line)
}
