ghost use Rattle.std.specs.Prelude.{◌≡◌};
ghost use Rattle.std.specs.List.{list_any};
ghost use Rattle.doc_meaning.specs.Values.{in_range, order_holds, scalar_order};
ghost use Rattle.doc_filter.specs.Scalars.{equals, equals_text, text_in_range};

use doc_model::{Compare, Scalar, Text};
use std::cmp::Ordering;

/// Whether a scalar of a document equals some value by type and value, texts as strings.
pub fn equals_some(found: &Scalar, wanted: &[Scalar]) -> bool
    ensures { result ≡ list_any (equals found.now) wanted.now }
{
    wanted.iter().any(|value| equals(found, value))
}

/// Whether a text of a document is some value.
pub fn text_equals_some(found: &Text, wanted: &[Scalar]) -> bool
    ensures { result ≡ list_any (equals_text found.now) wanted.now }
{
    wanted.iter().any(|value| equals_text(found, value))
}

/// Whether a scalar of a document compares so with some value.
pub fn is_in_some_range(op: Compare, found: &Scalar, wanted: &[Scalar]) -> bool
    ensures { result ≡ list_any (in_range op found.now) wanted.now }
{
    wanted.iter().any(|value| in_range(op, found, value))
}

/// Whether a text of a document compares so with some value.
pub fn text_is_in_some_range(op: Compare, found: &Text, wanted: &[Scalar]) -> bool
    ensures { result ≡ list_any (text_in_range op found.now) wanted.now }
{
    wanted.iter().any(|value| text_in_range(op, found, value))
}

fn equals(found: &Scalar, wanted: &Scalar) -> bool
    ensures { result ≡ equals found.now wanted.now }
{
    match (found, wanted) {
        (Scalar::Null, Scalar::Null) => true,
        (Scalar::Bool(a), Scalar::Bool(b)) => *a == *b,
        (Scalar::Num(a), Scalar::Num(b)) => *a == *b,
        (Scalar::Text(a), Scalar::Text(b)) => a == b,
        _ => false,
    }
}

fn equals_text(found: &Text, wanted: &Scalar) -> bool
    ensures { result ≡ equals_text found.now wanted.now }
{
    match wanted {
        Scalar::Text(wanted) => found == wanted,
        _ => false,
    }
}

fn in_range(op: Compare, found: &Scalar, wanted: &Scalar) -> bool
    ensures { result ≡ in_range op found.now wanted.now }
{
    match scalar_order(found, wanted) {
        Some(order) => order_holds(op, order),
        None => false,
    }
}

fn text_in_range(op: Compare, found: &Text, wanted: &Scalar) -> bool
    ensures { result ≡ text_in_range op found.now wanted.now }
{
    match wanted {
        Scalar::Text(wanted) => order_holds(op, found.cmp(wanted)),
        _ => false,
    }
}

/// How a scalar of a document is ordered with one of a query.
fn scalar_order(found: &Scalar, wanted: &Scalar) -> Option<Ordering>
    ensures { result ≡ scalar_order found.now wanted.now }
{
    match (found, wanted) {
        (Scalar::Num(a), Scalar::Num(b)) => Some(a.cmp(b)),
        (Scalar::Text(a), Scalar::Text(b)) => Some(a.cmp(b)),
        _ => None,
    }
}

/// Whether an order is what an operator asks.
fn order_holds(op: Compare, order: Ordering) -> bool
    ensures { result ≡ order_holds op order }
{
    match op {
        Compare::Lt => order.is_lt(),
        Compare::Le => order.is_le(),
        Compare::Gt => order.is_gt(),
        Compare::Ge => order.is_ge(),
        Compare::Eq => order.is_eq(),
        Compare::Ne => order.is_ne(),
    }
}
