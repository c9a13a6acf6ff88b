ghost use Rattle.std.specs.Prelude.{◌≡◌, ◌++◌, ◌∷◌, []};
ghost use Rattle.doc_model.specs.Kinds.{FindAlike, listed, other_kind};
ghost use Rattle.doc_model.specs.Queries.{kind_of, kinds_of};

use crate::{Kind, Scalar, Scalars};

/// The kinds of the values of a list, and which of them comes first.
#[derive(Clone, Copy, Debug)]
pub enum Kinds {
    Neither,
    One(Kind),
    /// This one first, and the other one too.
    Both(Kind),
}

/// The kinds of some values, in time of their number.
pub fn kinds_among(values: &Scalars) -> Kinds
    ensures { FindAlike (listed result) (kinds_of values.now) }
{
    let mut kinds = Kinds::Neither;
    for value in values.as_slice() {
        if let Some(kind) = kind_of(value) {
            kinds = with_kind(kinds, kind);
        }
    }
    kinds
}

/// The kinds of a list with one more value at its end.
fn with_kind(kinds: Kinds, kind: Kind) -> Kinds
    ensures { FindAlike (listed result) (listed kinds ++ kind ∷ []) }
{
    match kinds {
        Kinds::Neither => Kinds::One(kind),
        Kinds::One(first) if first != kind => Kinds::Both(first),
        _ => kinds,
    }
}

/// The kind that isn't this one.
pub fn other_kind(kind: Kind) -> Kind
    ensures { result ≡ other_kind kind }
{
    match kind {
        Kind::Decimal => Kind::Text,
        Kind::Text => Kind::Decimal,
    }
}

fn kind_of(value: &Scalar) -> Option<Kind>
    ensures { result ≡ kind_of value.now }
{
    match value {
        Scalar::Num(_) => Some(Kind::Decimal),
        Scalar::Text(_) => Some(Kind::Text),
        Scalar::Null | Scalar::Bool(_) => None,
    }
}
