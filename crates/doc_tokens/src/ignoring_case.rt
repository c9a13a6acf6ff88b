ghost use Rattle.std.specs.Prelude.{◌≡◌};
ghost use Rattle.doc_meaning.specs.Strings.{ignores_case};
ghost use Rattle.doc_meaning.specs.Words.{has_capital, is_capital};

use doc_model::Case;
use ucd_category::GeneralCategory;

/// Whether upper and lower case are alike to a query text. It looks at most once at each character.
pub fn ignores_case(case: Case, text: &str) -> bool
    ensures { result ≡ ignores_case case text.now }
{
    match case {
        Case::Auto => !has_capital(text),
        Case::Sensitive => false,
        Case::Insensitive => true,
    }
}

#[tactic(auto, unfolding(doc_meaning::specs::Words::has_capital))]
fn has_capital(text: &str) -> bool
    ensures { result ≡ has_capital text.now }
{
    text.chars()
        .any(|c| is_capital(GeneralCategory::for_char(c)))
}

/// Whether the category is that of capitals (Unicode, section 4.5).
fn is_capital(category: GeneralCategory) -> bool
    ensures { result ≡ is_capital category }
{
    matches!(
        category,
        GeneralCategory::UppercaseLetter | GeneralCategory::TitlecaseLetter
    )
}
