ghost use Rattle.std.specs.Prelude.{◌≡◌};
ghost use Rattle.byte_formats.specs.Answers.{Gives};
ghost use Rattle.docs_format.specs.Reading.{collection_at, collections_at, is_next};

use crate::reader::Reader;
use byte_formats::{DecodeError, FieldError};
use doc_model::{MAX_NAME_BYTES, Text, Texts};
use std::alloc::Global;

const MAX_COLLECTIONS: u32 = doc_model::MAX_COLLECTIONS as u32;

/// Reads the collections of a document, in strictly rising order.
#[tactic(auto, unfolding(crate::specs::Reading::collections_at))]
pub fn collections_at(alloc: Global, reader: &mut Reader) -> Result<Texts, DecodeError>
    ensures { Gives (λ x. (x, reader.new)) result (collections_at reader.old) }
{
    let left = reader.left();
    let count = reader.count()?;
    if count > MAX_COLLECTIONS {
        return Err(DecodeError::Bad(FieldError::Invalid(left)));
    }
    let mut collections = Texts::new(alloc);
    let mut last = "";
    for _ in 0..count {
        last = collection_at(last, reader)?;
        collections.push(Text::from_str(alloc, last)?)?;
    }
    Ok(collections)
}

#[tactic(auto, unfolding(crate::specs::Reading::collection_at))]
fn collection_at<'a>(last: &str, reader: &mut Reader<'a>) -> Result<&'a str, DecodeError>
    ensures { Gives (λ x. (x.now, reader.new)) result (collection_at last.now reader.old) }
{
    let left = reader.left();
    let name = reader.text()?;
    if is_next(last, name) {
        Ok(name)
    } else {
        Err(DecodeError::Bad(FieldError::Invalid(left)))
    }
}

/// Whether a name may follow `last`: it has 1 to 1,024 bytes and is greater by its bytes.
fn is_next(last: &str, name: &str) -> bool
    ensures { result ≡ is_next last.now name.now }
{
    1 <= name.len() && name.len() <= MAX_NAME_BYTES && last < name
}
