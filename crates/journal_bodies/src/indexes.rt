ghost use Rattle.std.specs.Prelude.{◌≡◌};
ghost use Rattle.doc_model.specs.Queries.{is_indexed};
ghost use Rattle.byte_formats.specs.Answers.{Gives};
ghost use Rattle.journal_bodies.specs.RootReading.{index_at, indexes_at, settings_at, type_at};

use doc_model::{Indexes, Kind, Settings, Text};
use docs_format::{DecodeError, FieldError, Reader};
use std::alloc::Global;

const MAX_INDEXES: u32 = doc_model::MAX_INDEXES as u32;

#[tactic(auto, unfolding(crate::specs::RootReading::settings_at))]
pub fn settings_at(alloc: Global, reader: &mut Reader) -> Result<Settings, DecodeError>
    ensures { Gives (λ x. (x, reader.new)) result (settings_at reader.old) }
{
    let save_at = reader.count()?;
    let merge_at = reader.count()?;
    let indexes = indexes_at(alloc, reader)?;
    Ok(Settings {
        indexes,
        save_at,
        merge_at,
    })
}

#[tactic(auto, unfolding(crate::specs::RootReading::indexes_at))]
fn indexes_at(alloc: Global, reader: &mut Reader) -> Result<Indexes, DecodeError>
    ensures { Gives (λ x. (x, reader.new)) result (indexes_at reader.old) }
{
    let left = reader.left();
    let count = reader.count()?;
    if count > MAX_INDEXES {
        return Err(DecodeError::Bad(FieldError::Invalid(left)));
    }
    let mut list = Vec::new(alloc);
    for _ in 0..count {
        list.push(index_at(alloc, list.as_slice(), reader)?)?;
    }
    match Indexes::new(list) {
        Some(indexes) => Ok(indexes),
        None => unreachable!(),
    }
}

/// Reads a range index. One that is among those before it is invalid at its kind.
#[tactic(auto, unfolding(crate::specs::RootReading::index_at))]
fn index_at(
    alloc: Global,
    before: &[(Text, Kind)],
    reader: &mut Reader,
) -> Result<(Text, Kind), DecodeError>
    ensures { Gives (λ x. (x, reader.new)) result (index_at before.now reader.old) }
{
    let name = reader.text()?;
    let left = reader.left();
    let kind = type_at(reader)?;
    if is_indexed(before, name, kind) {
        return Err(DecodeError::Bad(FieldError::Invalid(left)));
    }
    Ok((Text::from_str(alloc, name)?, kind))
}

fn is_indexed(list: &[(Text, Kind)], name: &str, kind: Kind) -> bool
    ensures { result ≡ is_indexed list.now (name.now, kind) }
{
    list.iter()
        .any(|index| name == index.0.as_str() && kind == index.1)
}

#[tactic(auto, unfolding(crate::specs::RootReading::type_at))]
fn type_at(reader: &mut Reader) -> Result<Kind, DecodeError>
    ensures { Gives (λ x. (x, reader.new)) result (type_at reader.old) }
{
    let left = reader.left();
    match reader.kind()? {
        0 => Ok(Kind::Decimal),
        1 => Ok(Kind::Text),
        2.. => Err(DecodeError::Bad(FieldError::Invalid(left))),
    }
}
