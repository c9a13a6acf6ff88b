ghost use Rattle.std.specs.Prelude.{◌≡◌, IfOk};
ghost use Rattle.doc_meaning.specs.Values.{text_equals, scalar_equals, scalar_order, order_holds, in_range};

use crate::{ignores_case, words_seen};
use doc_model::{Case, Compare, Scalar};
use std::alloc::{AllocError, Global};
use std::cmp::Ordering;

/// Whether a scalar of a document equals one of a query, by type and value. Texts are compared as strings where
/// `exact`, else word by word.
pub fn scalar_equals(
    alloc: Global,
    case: Case,
    exact: bool,
    found: &Scalar,
    wanted: &Scalar,
) -> Result<bool, AllocError>
    ensures { IfOk result (λ b. b ≡ scalar_equals case exact found.now wanted.now) }
{
    match (found, wanted) {
        (Scalar::Null, Scalar::Null) => Ok(true),
        (Scalar::Bool(a), Scalar::Bool(b)) => Ok(*a == *b),
        (Scalar::Num(a), Scalar::Num(b)) => Ok(*a == *b),
        (Scalar::Text(a), Scalar::Text(b)) => {
            text_equals(alloc, case, exact, a.as_str(), b.as_str())
        }
        _ => Ok(false),
    }
}

fn text_equals(
    alloc: Global,
    case: Case,
    exact: bool,
    found: &str,
    wanted: &str,
) -> Result<bool, AllocError>
    ensures { IfOk result (λ b. b ≡ text_equals case exact found.now wanted.now) }
{
    if exact {
        return Ok(found == wanted);
    }
    let any_case = ignores_case(case, wanted);
    let found = words_seen(alloc, any_case, found)?;
    let wanted = words_seen(alloc, any_case, wanted)?;
    Ok(found.as_slice() == wanted.as_slice())
}

/// Whether a scalar of a document compares so with one of a query. Numbers are ordered by value and texts by
/// their bytes.
pub fn in_range(op: Compare, found: &Scalar, wanted: &Scalar) -> bool
    ensures { result ≡ in_range op found.now wanted.now }
{
    match scalar_order(found, wanted) {
        Some(order) => order_holds(op, order),
        None => false,
    }
}

fn scalar_order(found: &Scalar, wanted: &Scalar) -> Option<Ordering>
    ensures { result ≡ scalar_order found.now wanted.now }
{
    match (found, wanted) {
        (Scalar::Num(a), Scalar::Num(b)) => Some(a.cmp(b)),
        (Scalar::Text(a), Scalar::Text(b)) => Some(a.cmp(b)),
        _ => None,
    }
}

/// Whether an order is what an operator asks.
pub fn order_holds(op: Compare, order: Ordering) -> bool
    ensures { result ≡ order_holds op order }
{
    match op {
        Compare::Lt => order.is_lt(),
        Compare::Le => order.is_le(),
        Compare::Gt => order.is_gt(),
        Compare::Ge => order.is_ge(),
        Compare::Eq => order.is_eq(),
        Compare::Ne => order.is_ne(),
    }
}
