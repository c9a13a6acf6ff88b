ghost use Rattle.std.specs.Prelude.{◌≡◌, ◌++◌, List, ℕ, Option, Some, None, is_some, drop, Bool};
ghost use Rattle.json_text.specs.Reading.{Gives, Tells, end_at, run_at, piece_at, text_at, char_bytes};

use crate::escape::escape;
use crate::fault::{Fault, Stop};
use crate::scan::{plain_len, unexpected};
use doc_model::Text;
use std::alloc::Global;

/// A run of characters that aren't escaped.
#[tactic(auto, unfolding(crate::specs::Reading::run_at))]
fn run(bytes: &[u8]) -> Result<(&str, &[u8]), Fault>
    ensures { Tells (λ x. (x.0.now, x.1.now)) result (run_at bytes.now) }
{
    let (run, rest) = bytes.split_at(plain_len(bytes));
    match str::from_utf8(run) {
        Ok(text) => Ok((text, rest)),
        Err(e) => Err(Fault::Utf8(bytes.len() - e.valid_up_to())),
    }
}

/// What ends a run: an escaped character, or none at the quotation mark.
#[tactic(auto, unfolding(crate::specs::Reading::end_at))]
fn end(bytes: &[u8]) -> Result<(Option<char>, &[u8]), Fault>
    ensures { Tells (λ x. ((char_bytes x.0, is_some x.0), x.1.now)) result (end_at bytes.now) }
{
    match bytes {
        [b'"', rest @ ..] => Ok((None, rest)),
        [b'\\', rest @ ..] => {
            let (c, rest) = escape(bytes.len(), rest)?;
            Ok((Some(c), rest))
        }
        _ => Err(unexpected(bytes)),
    }
}

/// A run and what ends it.
#[tactic(auto, unfolding(crate::specs::Reading::piece_at))]
fn piece(bytes: &[u8]) -> Result<(&str, Option<char>, &[u8]), Fault>
    ensures { Tells (λ x. ((x.0.now ++ char_bytes x.1, is_some x.1), x.2.now)) result (piece_at bytes.now) }
{
    let (run, rest) = run(bytes)?;
    let (end, rest) = end(rest)?;
    Ok((run, end, rest))
}

/// The rest of a string, behind its quotation mark. A run is copied at once.
#[tactic(auto, unfolding(crate::specs::Reading::text_at))]
pub(crate) fn text(alloc: Global, bytes: &[u8]) -> Result<(Text, &[u8]), Stop>
    ensures { Gives (λ x. (x.0, x.1.now)) result (text_at bytes.now) }
{
    let mut out = String::new(alloc);
    let mut rest = bytes;
    for _ in 0..bytes.len() {
        let (run, end, behind) = piece(rest)?;
        out.push_str(run)?;
        rest = behind;
        match end {
            Some(c) => out.push(c)?,
            None => return Ok((Text::from_string(out), rest)),
        }
    }
    Err(Stop::Fault(unexpected(rest)))
}
