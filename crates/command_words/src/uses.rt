//! The words of a command, one use after the other.

ghost use Rattle.std.specs.Prelude.{◌∷◌, map, string_bytes};
ghost use Rattle.command_words.specs.Reading.{FindsSetting, FindsUse};
ghost use Rattle.command_words.specs.Words.{HasNoDash};

use crate::scan::{has_no_dash, strip};

// An option of `init`.
#[derive(Clone, Copy)]
pub(crate) enum Setting {
    Range,
    SaveAt,
    MergeAt,
}

// A word that is no option, or an option with its value.
#[derive(Clone, Copy)]
pub(crate) enum Argument<'a> {
    Word(&'a str),
    Given(Setting, &'a str),
}

// The use with which the words begin, and the words after it. None where they end, at `--`, and at a word that is no
// option and has a dash.
pub(crate) fn next_use(words: &[String]) -> Option<(Argument<'_>, &[String])>
    ensures { FindsUse (map string_bytes words.now) result }
{
    let [word, behind @ ..] = words else {
        return None;
    };
    if has_no_dash(word) {
        Some((Argument::Word(word), behind))
    } else {
        given(word, behind)
    }
}

// The option that a word names, with its value: after `=`, or the next word, which has no dash.
fn given<'a>(word: &'a str, behind: &'a [String]) -> Option<(Argument<'a>, &'a [String])>
    requires { HasNoDash word.now → ⊥ }
    ensures { FindsUse (word.now ∷ map string_bytes behind.now) result }
{
    let (setting, tail) = setting_of(word)?;
    if let Some(value) = strip(tail, "=") {
        return Some((Argument::Given(setting, value), behind));
    }
    match behind {
        [value, behind @ ..] if tail.is_empty() && has_no_dash(value) => {
            Some((Argument::Given(setting, value), behind))
        }
        _ => None,
    }
}

// The option with which a word begins, and what follows in the word.
fn setting_of(word: &str) -> Option<(Setting, &str)>
    ensures { FindsSetting word.now result }
{
    if let Some(tail) = strip(word, "--range") {
        Some((Setting::Range, tail))
    } else if let Some(tail) = strip(word, "--save-at") {
        Some((Setting::SaveAt, tail))
    } else {
        let tail = strip(word, "--merge-at")?;
        Some((Setting::MergeAt, tail))
    }
}
