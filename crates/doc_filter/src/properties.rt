ghost use Rattle.std.specs.Prelude.{◌≡◌};
ghost use Rattle.std.specs.Option.{option_copied};
ghost use Rattle.doc_meaning.specs.Strings.{is_named};
ghost use Rattle.doc_model.specs.Tree.{is_among};

use doc_model::Text;

/// Whether a name is one of the names.
pub fn is_among(names: &[Text], name: &str) -> bool
    ensures { result ≡ is_among names.now name.now }
{
    names.iter().any(|other| name == other.as_str())
}

/// Whether the owner is one of the names, where names are given.
pub fn is_named(names: Option<&[Text]>, property: Option<&Text>) -> bool
    ensures { result ≡ is_named (option_copied names.entry) (option_copied property.entry) }
{
    match (names, property) {
        (None, _) => true,
        (Some(_), None) => false,
        (Some(names), Some(property)) => is_among(names, property.as_str()),
    }
}
