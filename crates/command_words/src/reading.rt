//! What the uses of a command's words give.

ghost use Rattle.std.specs.Prelude.{[], ◌↔◌, ◌≡◌, IsSome, IsTrue, None, OnErr, OnOk, Some, map, string_bytes};
ghost use Rattle.command_words.specs.declared.uses.Argument.TheVariants.{Given};
ghost use Rattle.command_words.specs.Reading.{Adds, FindsOnly, FindsReading, Holds, IsBare, Refuses, listed};

use crate::numbers::number;
use crate::ranges::{MAX_RANGES, Range, take_range};
use crate::scan::same;
use crate::uses::{Argument, Setting, next_use};
use arrayvec::ArrayVec;

// The words don't fit.
#[derive(Clone, Copy)]
pub(crate) struct Unfit;

// What was read so far.
#[derive(Drop)]
pub(crate) struct Reading<'a> {
    pub(crate) directory: Option<&'a str>,
    pub(crate) ranges: ArrayVec<Range<'a>, MAX_RANGES>,
    pub(crate) save_at: Option<u32>,
    pub(crate) merge_at: Option<u32>,
}

impl<'a> Reading<'a> {
    fn new() -> Self
        ensures { Holds result [] }
    {
        Reading {
            directory: None,
            ranges: ArrayVec::new(),
            save_at: None,
            merge_at: None,
        }
    }

    // Takes what a use gives. Refuses what is given twice, or isn't well formed.
    #[tactic(auto, using(crate::proofs::ReadingLemmas::adds_word, crate::proofs::ReadingLemmas::refuses_word))]
    fn take(&mut self, argument: Argument<'a>) -> Result<(), Unfit>
        ensures added { OnOk result (Adds self.old self.new argument.entry) }
        ensures refused { OnErr result (Refuses self.old argument.entry) }
    {
        match argument {
            Argument::Word(word) => once(&mut self.directory, word),
            Argument::Given(setting, value) => self.give(setting, value),
        }
    }

    // Takes the value of an option.
    #[tactic(auto, using(crate::proofs::ReadingLemmas::adds_range, crate::proofs::ReadingLemmas::adds_save, crate::proofs::ReadingLemmas::adds_merge, crate::proofs::ReadingLemmas::refuses_range, crate::proofs::ReadingLemmas::refuses_save, crate::proofs::ReadingLemmas::refuses_merge,))]
    fn give(&mut self, setting: Setting, value: &'a str) -> Result<(), Unfit>
        ensures added { OnOk result (Adds self.old self.new (Given setting value.entry)) }
        ensures refused { OnErr result (Refuses self.old (Given setting value.entry)) }
    {
        match setting {
            Setting::Range => take_range(&mut self.ranges, value),
            Setting::SaveAt => {
                let number = number(value, 1, 1_000_000).ok_or(Unfit)?;
                once(&mut self.save_at, number)
            }
            Setting::MergeAt => {
                let number = number(value, 2, 64).ok_or(Unfit)?;
                once(&mut self.merge_at, number)
            }
        }
    }

    // Whether no option was given.
    pub(crate) fn is_bare(&self) -> bool
        ensures { IsTrue result ↔ IsBare self.now }
    {
        self.ranges.is_empty() && self.save_at.is_none() && self.merge_at.is_none()
    }
}

// Fills a slot that is empty.
fn once<T: Copy>(slot: &mut Option<T>, value: T) -> Result<(), Unfit>
    ensures filled { OnOk result ((slot.old ≡ None) × (slot.new ≡ Some value)) }
    ensures full { OnErr result (IsSome slot.old) }
{
    match slot {
        None => {
            *slot = Some(value);
            Ok(())
        }
        Some(_) => Err(Unfit),
    }
}

// Reads the words of a command, and which directory they name.
pub(crate) fn read(words: &[String]) -> Option<(Reading<'_>, &str)>
    ensures { FindsReading (map string_bytes words.now) result }
{
    let mut reading = Reading::new();
    let mut rest = words;
    while let Some((argument, behind)) = next_use(rest) {
        reading.take(argument).ok()?;
        rest = behind;
    }
    let directory = only_word(reading.directory, rest)?;
    Some((reading, directory))
}

// The only word that isn't an option: one before the end of the options, or the one after it.
fn only_word<'a>(before: Option<&'a str>, rest: &'a [String]) -> Option<&'a str>
    ensures { FindsOnly (listed before.entry) (map string_bytes rest.now) result }
{
    match (before, rest) {
        (Some(word), []) => Some(word),
        (Some(word), [end]) if same(end, "--") => Some(word),
        (None, [end, word]) if same(end, "--") => Some(word),
        _ => None,
    }
}
