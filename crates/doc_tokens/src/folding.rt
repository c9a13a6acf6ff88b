ghost use Rattle.std.specs.Prelude.{◌≡◌, IfOk};
ghost use Rattle.doc_meaning.specs.Words.{fold_case};

use caseless::default_case_fold_str;
use doc_model::Text;
use std::alloc::{AllocError, Global};

/// A word in the form in which words are alike that differ in case alone: its full default case folding
/// (Unicode, section 3.13).
#[tactic(auto, unfolding(doc_meaning::specs::Words::fold_case))]
pub fn fold(alloc: Global, word: &str) -> Result<Text, AllocError>
    ensures { IfOk result (λ folded. folded ≡ fold_case word.now) }
{
    Ok(Text::from_string(default_case_fold_str(alloc, word)?))
}
