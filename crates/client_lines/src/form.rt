ghost use Rattle.std.specs.Prelude.{◌≡◌, ◌↔◌, IfOk, IfErr, IsTrue};
ghost use Rattle.client_lines.specs.LineForms.{HasLineForm, IsUnformed, FindsPut, FindsWord, LacksCommon};
ghost use Rattle.client_lines.specs.Finds.{FindsRest};
ghost use Rattle.transcript.specs.Forms.{IsWord};

use crate::rows::{match_answered, match_at, match_others, match_pinned};
use crate::scan::{is, strip};

/// What a line holds, by its form.
pub(crate) enum LineForm<'a> {
    Put { uri: &'a str, json: &'a [u8] },
    Remove { uri: &'a str },
    Get { uri: &'a str },
    Search { json: &'a [u8] },
    Stamp,
    Quit,
    /// A form that isn't answered yet.
    Later,
}

/// The form of a line; of a line that has none the length of the longest prefix that begins a line of some form.
/// A put costs one scan for the space behind its URI.
pub(crate) fn form(line: &str) -> Result<LineForm<'_>, u64>
    ensures found { IfOk result (HasLineForm line.now) }
    ensures none { IfErr result (IsUnformed line.now) }
{
    if let Some((uri, json)) = put(line) {
        return Ok(LineForm::Put { uri, json });
    }
    if let Some(uri) = word_behind(line, "remove ") {
        return Ok(LineForm::Remove { uri });
    }
    if let Some(uri) = word_behind(line, "get ") {
        return Ok(LineForm::Get { uri });
    }
    if is(line.as_bytes(), b"stamp") {
        return Ok(LineForm::Stamp);
    }
    if is(line.as_bytes(), b"quit") {
        return Ok(LineForm::Quit);
    }
    other_form(line)
}

fn put(line: &str) -> Option<(&str, &[u8])>
    ensures { FindsPut line.now result }
{
    let (uri, json) = behind(line, "put ")?.split_once(' ')?;
    if uri.is_empty() {
        return None;
    }
    Some((uri, json.as_bytes()))
}

// The bytes behind the head, if they are one word.
fn word_behind<'a>(line: &'a str, head: &str) -> Option<&'a str>
    ensures { FindsWord line.now head.now result }
{
    let text = behind(line, head)?;
    if is_word(text) { Some(text) } else { None }
}

fn behind<'a>(line: &'a str, head: &str) -> Option<&'a str>
    ensures { FindsRest line.now head.now result }
{
    line.strip_prefix(head)
}

fn is_word(text: &str) -> bool
    ensures { IsTrue result ↔ IsWord text.now }
{
    !text.is_empty() && !text.contains(' ')
}

// A search reads at the front where no form fits that reads at a timestamp or at the pin.
fn other_form(line: &str) -> Result<LineForm<'_>, u64>
    requires { LacksCommon line.now }
    ensures found { IfOk result (HasLineForm line.now) }
    ensures none { IfErr result (IsUnformed line.now) }
{
    let bytes = line.as_bytes();
    let fixed = match_at(bytes).or(match_pinned(bytes));
    if fixed.whole {
        return Ok(LineForm::Later);
    }
    if let Some(json) = strip(bytes, b"search ") {
        return Ok(LineForm::Search { json });
    }
    let others = match_others(bytes);
    if others.whole {
        return Ok(LineForm::Later);
    }
    Err(fixed.or(others).or(match_answered(bytes)).count as u64)
}
