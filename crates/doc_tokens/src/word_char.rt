ghost use Rattle.std.specs.Prelude.{◌≡◌};
ghost use Rattle.doc_meaning.specs.Words.{is_word_char};

use ucd_category::{GeneralCategory, GeneralCategoryGroup};

/// Whether words are made of this character: its General_Category (Unicode, section 4.5) is a Letter, a Mark or
/// a Number.
#[tactic(auto, unfolding(doc_meaning::specs::Words::is_word_char))]
pub fn is_word_char(c: char) -> bool
    ensures { result ≡ is_word_char c }
{
    let category = GeneralCategory::for_char(c);
    GeneralCategoryGroup::Letter.contains(category)
        || GeneralCategoryGroup::Mark.contains(category)
        || GeneralCategoryGroup::Number.contains(category)
}
