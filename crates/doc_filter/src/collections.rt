ghost use Rattle.std.specs.Prelude.{◌≡◌};
ghost use Rattle.doc_meaning.specs.Meaning.{have_common};

use crate::properties::is_among;
use doc_model::Texts;

/// Whether some name is one of the names.
pub fn have_common(names: &Texts, wanted: &Texts) -> bool
    ensures { result ≡ have_common names.now wanted.now }
{
    let names = names.as_slice();
    wanted
        .as_slice()
        .iter()
        .any(|name| is_among(names, name.as_str()))
}
