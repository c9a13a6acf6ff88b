ghost use Rattle.std.specs.Prelude.{◌≡◌, ◌++◌, All, OnOk};
ghost use Rattle.std.specs.Option.{option_copied};
ghost use Rattle.doc_filter.specs.Tokenized.{IsNumbered, has_phrase, phrase_starts, positions_in};

use crate::properties::is_named;
use crate::tokenized_string::TokenizedString;
use crate::word_runs::{add_positions, occur_in};
use doc_model::Text;
use sqlite_items::Items;
use std::alloc::AllocError;

/// Whether the words occur one after another in a string of these properties, or in any.
pub fn has_phrase(strings: &[TokenizedString], wanted: &[Text], names: Option<&[Text]>) -> bool
    ensures { result ≡ has_phrase strings.now wanted.now (option_copied names.entry) }
{
    for string in strings {
        if is_named(names, string.property.as_ref()) && occur_in(wanted, string.words.as_slice()) {
            return true;
        }
    }
    false
}

/// Adds where the words start in the strings of these properties, or in all, as numbers of words.
pub fn add_phrase_starts(
    strings: &[TokenizedString],
    wanted: &[Text],
    names: Option<&[Text]>,
    out: &mut Items<u64>,
) -> Result<(), AllocError>
    requires { All IsNumbered strings.now }
    ensures { OnOk result (out.new ≡ out.old ++ phrase_starts strings.now wanted.now (option_copied names.entry)) }
{
    for string in strings {
        if is_named(names, string.property.as_ref()) {
            add_places_in(string, wanted, out)?;
        }
    }
    Ok(())
}

/// The same for one string.
fn add_places_in(
    string: &TokenizedString,
    wanted: &[Text],
    out: &mut Items<u64>,
) -> Result<(), AllocError>
    requires { IsNumbered string.now }
    ensures { OnOk result (out.new ≡ out.old ++ positions_in string.now wanted.now) }
{
    add_positions(wanted, string.words.as_slice(), string.first_position, out)
}
