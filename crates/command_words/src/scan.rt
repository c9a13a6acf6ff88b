//! What a word begins or ends with.

ghost use Rattle.std.specs.Prelude.{◌≡◌, ◌↔◌, IsTrue};
ghost use Rattle.std.specs.Bool.{Decides};
ghost use Rattle.command_words.specs.Words.{HasNoDash};
ghost use Rattle.command_words.specs.Reading.{FindsFront, FindsRest};

// What follows a beginning, if the word has it.
pub(crate) fn strip<'a>(word: &'a str, head: &str) -> Option<&'a str>
    ensures { FindsRest word.now head.now result }
{
    word.strip_prefix(head)
}

// What comes before an end, if the word has it.
pub(crate) fn strip_end<'a>(word: &'a str, tail: &str) -> Option<&'a str>
    ensures { FindsFront word.now tail.now result }
{
    word.strip_suffix(tail)
}

// Whether a word doesn't begin with a dash.
pub(crate) fn has_no_dash(word: &str) -> bool
    ensures { IsTrue result ↔ HasNoDash word.now }
{
    let bytes = word.as_bytes();
    bytes.is_empty() || bytes[0] != b'-'
}

// Whether two texts are the same.
pub(crate) fn same(word: &str, text: &str) -> bool
    ensures { Decides result (word.now ≡ text.now) }
{
    word == text
}
