ghost use Rattle.std.specs.Prelude.{◌≡◌, ◌∷◌, [], ◌++◌, not, List, ℕ, IfOk, OnOk};
ghost use Rattle.doc_model.specs.Tree.{is_among};
ghost use Rattle.byte_formats.specs.Answers.{Gives};
ghost use Rattle.docs_format.specs.Answers.{HasNames};
ghost use Rattle.docs_format.specs.Reading.{name_at};

use crate::reader::Reader;
use byte_formats::{DecodeError, FieldError};
use std::alloc::AllocError;
use std::collections::BTreeMap;

/// Reads the name of a member and adds it to `seen`. A name that `seen` has is invalid.
#[tactic(auto, unfolding(crate::specs::Reading::name_at))]
pub fn name_at<'a>(
    seen: &mut BTreeMap<&'a str, ()>,
    reader: &mut Reader<'a>,
) -> Result<&'a str, DecodeError>
    ensures name { (before : List (List ℕ)) → HasNames seen.old before
        → Gives (λ x. (x.now, reader.new)) result (name_at before reader.old) }
    ensures noted { (before : List (List ℕ)) → HasNames seen.old before
        → IfOk result (λ x. HasNames seen.new (before ++ x.now ∷ [])) }
{
    let left = reader.left();
    let name = reader.text()?;
    if is_fresh(seen, name)? {
        Ok(name)
    } else {
        Err(DecodeError::Bad(FieldError::Invalid(left)))
    }
}

/// Adds a name, and returns whether it is new.
fn is_fresh<'a>(seen: &mut BTreeMap<&'a str, ()>, name: &'a str) -> Result<bool, AllocError>
    ensures fresh { (before : List (List ℕ)) → HasNames seen.old before
        → IfOk result (λ fresh. fresh ≡ not (is_among before name.now)) }
    ensures noted { (before : List (List ℕ)) → HasNames seen.old before
        → OnOk result (HasNames seen.new (before ++ name.now ∷ [])) }
{
    Ok(seen.insert(name, ())?.is_none())
}
