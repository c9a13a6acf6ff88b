//! The forms of queries by their names, and the members of their argument objects. Each form has a file of its own:
//! which members it has, what it says, and how it is written.

ghost use Rattle.std.specs.Prelude.{◌≡◌};
ghost use Rattle.std.specs.List.{list_all};
ghost use Rattle.cts_meaning.specs.Shapes.{field_shape, fields_of, form_name, form_named, is_given};

pub(crate) mod and_not;
pub(crate) mod and_or;
pub(crate) mod bare;
pub(crate) mod directory;
pub(crate) mod near;
pub(crate) mod not_query;
pub(crate) mod prop_value;
pub(crate) mod prop_word;
pub(crate) mod range;
pub(crate) mod uris;
pub(crate) mod word;

use cts_meaning::{QueryForm, Shape};
use doc_model::Members;

pub(crate) fn form_name(form: QueryForm) -> &'static str
    ensures { result.now ≡ form_name form }
{
    match form {
        QueryForm::True => "trueQuery",
        QueryForm::False => "falseQuery",
        QueryForm::And => "andQuery",
        QueryForm::Or => "orQuery",
        QueryForm::Not => "notQuery",
        QueryForm::AndNot => "andNotQuery",
        QueryForm::Word => "wordQuery",
        QueryForm::PropWord => "jsonPropertyWordQuery",
        QueryForm::PropValue => "jsonPropertyValueQuery",
        QueryForm::Range => "jsonPropertyRangeQuery",
        QueryForm::Near => "nearQuery",
        QueryForm::Collection => "collectionQuery",
        QueryForm::DocUri => "documentQuery",
        QueryForm::Directory => "directoryQuery",
    }
}

pub(crate) fn form_named(name: &str) -> Option<QueryForm>
    ensures { result ≡ form_named name.now }
{
    match name {
        "trueQuery" => Some(QueryForm::True),
        "falseQuery" => Some(QueryForm::False),
        "andQuery" => Some(QueryForm::And),
        "orQuery" => Some(QueryForm::Or),
        "notQuery" => Some(QueryForm::Not),
        "andNotQuery" => Some(QueryForm::AndNot),
        "wordQuery" => Some(QueryForm::Word),
        "jsonPropertyWordQuery" => Some(QueryForm::PropWord),
        "jsonPropertyValueQuery" => Some(QueryForm::PropValue),
        "jsonPropertyRangeQuery" => Some(QueryForm::Range),
        "nearQuery" => Some(QueryForm::Near),
        "collectionQuery" => Some(QueryForm::Collection),
        "documentQuery" => Some(QueryForm::DocUri),
        "directoryQuery" => Some(QueryForm::Directory),
        _ => None,
    }
}

/// What the member of this name is judged as. `None` says that the form has no such member.
pub(crate) fn field_shape(form: QueryForm, name: &str) -> Option<Shape>
    ensures { result ≡ field_shape (fields_of form) name.now }
{
    match form {
        QueryForm::True | QueryForm::False => None,
        QueryForm::And | QueryForm::Or => and_or::field_shape(name),
        QueryForm::Not => not_query::field_shape(name),
        QueryForm::AndNot => and_not::field_shape(name),
        QueryForm::Word => word::field_shape(name),
        QueryForm::PropWord => prop_word::field_shape(name),
        QueryForm::PropValue => prop_value::field_shape(name),
        QueryForm::Range => range::field_shape(name),
        QueryForm::Near => near::field_shape(name),
        QueryForm::Collection | QueryForm::DocUri => uris::field_shape(name),
        QueryForm::Directory => directory::field_shape(name),
    }
}

/// Whether no member is missing, in time of the members for each that is to be there.
pub(crate) fn is_complete(form: QueryForm, members: &Members) -> bool
    ensures { result ≡ list_all (is_given members.now) (fields_of form) }
{
    match form {
        QueryForm::True | QueryForm::False => true,
        QueryForm::And | QueryForm::Or => and_or::is_complete(members),
        QueryForm::Not => not_query::is_complete(members),
        QueryForm::AndNot => and_not::is_complete(members),
        QueryForm::Word => word::is_complete(members),
        QueryForm::PropWord => prop_word::is_complete(members),
        QueryForm::PropValue => prop_value::is_complete(members),
        QueryForm::Range => range::is_complete(members),
        QueryForm::Near => near::is_complete(members),
        QueryForm::Collection | QueryForm::DocUri => uris::is_complete(members),
        QueryForm::Directory => directory::is_complete(members),
    }
}
