//! Whether a node itself fits a shape, whatever its parts are: the rules of the shapes.

ghost use Rattle.std.specs.Prelude.{◌≡◌, is_some};
ghost use Rattle.std.specs.List.{list_all};
ghost use Rattle.cts_meaning.specs.Shapes.{fits_object, rule_of};

use crate::compare::compare_named;
use crate::distance::whole_distance;
use crate::forms::{field_shape, form_named, is_complete};
use crate::options::{has_rivals, is_option};
use cts_meaning::Shape;
use doc_model::{Dec, Members, Node, Nodes, Text};

/// Null, true and false.
pub(crate) fn flat_fits(shape: Shape) -> bool
    ensures { result ≡ (rule_of shape).flat }
{
    match shape {
        Shape::Scalars | Shape::Scalar => true,
        _ => false,
    }
}

pub(crate) fn number_fits(shape: Shape, number: &Dec) -> bool
    ensures { result ≡ (rule_of shape).number number.now }
{
    match shape {
        Shape::Scalars | Shape::Scalar | Shape::Comparables | Shape::Comparable => true,
        Shape::Distance => whole_distance(number).is_some(),
        _ => false,
    }
}

pub(crate) fn text_fits(shape: Shape, text: &str) -> bool
    ensures { result ≡ (rule_of shape).text text.now }
{
    match shape {
        Shape::Texts | Shape::Text => true,
        Shape::Scalars | Shape::Scalar | Shape::Comparables | Shape::Comparable => true,
        Shape::Compare => compare_named(text).is_some(),
        Shape::Depth => text == "1" || text == "infinity",
        Shape::Option(kind) => is_option(kind, text),
        _ => false,
    }
}

/// What the items of an array are judged as. `None` says that the array doesn't fit.
pub(crate) fn item_shape(shape: Shape, items: &Nodes) -> Option<Shape>
    ensures { result ≡ (rule_of shape).array items.now }
{
    match shape {
        Shape::Queries => Some(Shape::Query),
        Shape::Texts => Some(Shape::Text),
        Shape::Scalars => Some(Shape::Scalar),
        Shape::Comparables => Some(Shape::Comparable),
        Shape::Options(_) if has_rivals(items) => None,
        Shape::Options(kind) => Some(Shape::Option(kind)),
        _ => None,
    }
}

/// What the value of a member of this name is judged as. `None` says that there is no such member.
pub(crate) fn member_shape(shape: Shape, name: &str) -> Option<Shape>
    ensures { result ≡ (rule_of shape).member name.now }
{
    match shape {
        Shape::Query => Some(Shape::Argument(form_named(name)?)),
        Shape::Argument(form) => field_shape(form, name),
        _ => None,
    }
}

pub(crate) fn fits_object(shape: Shape, members: &Members) -> bool
    ensures { result ≡ fits_object (rule_of shape) members.now }
{
    has_members(shape, members) && are_known(shape, members.as_slice())
}

/// Whether there is a place for each member.
fn are_known(shape: Shape, members: &[(Text, Node)]) -> bool
    ensures { result ≡ list_all (λ m. is_some ((rule_of shape).member m.0)) members.now }
{
    members
        .iter()
        .all(|m| member_shape(shape, m.0.as_str()).is_some())
}

fn has_members(shape: Shape, members: &Members) -> bool
    ensures { result ≡ (rule_of shape).members members.now }
{
    match shape {
        Shape::Query => members.len() == 1,
        Shape::Argument(form) => is_complete(form, members),
        _ => false,
    }
}
