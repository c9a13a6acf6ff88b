//! The URIs of the operations of a commit, each once.

ghost use Rattle.std.specs.Prelude.{◌≡◌, ◌∷◌, [], ◌++◌, not, List, ℕ, IfOk, OnOk};
ghost use Rattle.doc_model.specs.Tree.{is_among};
ghost use Rattle.byte_formats.specs.Answers.{Gives};
ghost use Rattle.docs_format.specs.Answers.{HasNames};
ghost use Rattle.journal_bodies.specs.EntryReading.{fresh_at};

use docs_format::{DecodeError, FieldError, Reader};
use std::alloc::AllocError;
use std::collections::BTreeMap;

/// The URIs that were read so far.
pub type Met<'a> = BTreeMap<&'a str, ()>;

/// Reads a URI and adds it to `met`. A URI that `met` has is invalid.
#[tactic(auto, unfolding(crate::specs::EntryReading::fresh_at))]
pub fn fresh_at<'a>(met: &mut Met<'a>, reader: &mut Reader<'a>) -> Result<&'a str, DecodeError>
    ensures uri { (others : List (List ℕ)) → HasNames met.old others
        → Gives (λ x. (x.now, reader.new)) result (fresh_at others reader.old) }
    ensures noted { (others : List (List ℕ)) → HasNames met.old others
        → IfOk result (λ x. HasNames met.new (others ++ x.now ∷ [])) }
{
    let left = reader.left();
    let uri = reader.uri()?;
    if is_fresh(met, uri)? {
        Ok(uri)
    } else {
        Err(DecodeError::Bad(FieldError::Invalid(left)))
    }
}

/// Adds a URI, and returns whether it is new.
fn is_fresh<'a>(met: &mut Met<'a>, uri: &'a str) -> Result<bool, AllocError>
    ensures fresh { (others : List (List ℕ)) → HasNames met.old others
        → IfOk result (λ fresh. fresh ≡ not (is_among others uri.now)) }
    ensures noted { (others : List (List ℕ)) → HasNames met.old others
        → OnOk result (HasNames met.new (others ++ uri.now ∷ [])) }
{
    Ok(met.insert(uri, ())?.is_none())
}
