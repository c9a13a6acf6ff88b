//! Numbers in words.

ghost use Rattle.std.specs.Prelude.{◌≡◌};
ghost use Rattle.std.specs.Bool.{Decides};
ghost use Rattle.std.specs.Fmt.{decimal};
ghost use Rattle.command_words.specs.Reading.{FindsNumber};

use crate::scan::same;
use itoa::Buffer;

// The number that a word is, within bounds. Written again it is the same word, so it has no sign and no leading zero.
pub(crate) fn number(word: &str, least: u32, most: u32) -> Option<u32>
    ensures { FindsNumber least most word.now result }
{
    let number = word.parse::<u32>().ok()?;
    if !is_written(number, word) {
        return None;
    }
    if number < least || most < number {
        return None;
    }
    Some(number)
}

// Whether a word is how a number is written.
fn is_written(number: u32, word: &str) -> bool
    ensures { Decides result (word.now ≡ decimal number) }
{
    let mut buffer = Buffer::new();
    same(word, buffer.format(number))
}
