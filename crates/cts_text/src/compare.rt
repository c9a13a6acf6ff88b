//! The signs of comparisons, both ways.

ghost use Rattle.std.specs.Prelude.{◌≡◌};
ghost use Rattle.cts_meaning.specs.Shapes.{compare_named, compare_text};

use doc_model::Compare;

pub(crate) fn compare_text(op: Compare) -> &'static str
    ensures { result.now ≡ compare_text op }
{
    match op {
        Compare::Lt => "<",
        Compare::Le => "<=",
        Compare::Gt => ">",
        Compare::Ge => ">=",
        Compare::Eq => "=",
        Compare::Ne => "!=",
    }
}

pub(crate) fn compare_named(text: &str) -> Option<Compare>
    ensures { result ≡ compare_named text.now }
{
    match text {
        "<" => Some(Compare::Lt),
        "<=" => Some(Compare::Le),
        ">" => Some(Compare::Gt),
        ">=" => Some(Compare::Ge),
        "=" => Some(Compare::Eq),
        "!=" => Some(Compare::Ne),
        _ => None,
    }
}
