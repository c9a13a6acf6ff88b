ghost use Rattle.std.specs.Prelude.{◌≡◌, ◌++◌, IfOk, OnOk, map, filter, Some};
ghost use Rattle.std.specs.List.{list_any};
ghost use Rattle.doc_meaning.specs.Meaning.{some_pair, have_common, in_directory};
ghost use Rattle.doc_meaning.specs.Strings.{scalars_of, scalars, is_named};
ghost use Rattle.doc_meaning.specs.Values.{scalar_equals, in_range};
ghost use Rattle.plain_query.specs.Leaves.{leaf_holds};

use crate::text_starts::{is_among, is_named};
use crate::{in_directory, in_range, scalar_equals, scalars};
use doc_model::{Case, Compare, Document, Node, Query, Scalar, Scalars, Text, Texts};
use sqlite_items::Items;
use std::alloc::{AllocError, Global};

/// Whether a query without starts and without children holds. It is false for every other query.
pub fn leaf_holds(alloc: Global, query: &Query, document: &Document) -> Result<bool, AllocError>
    ensures { IfOk result (λ b. b ≡ leaf_holds query.now document.now) }
{
    match query {
        Query::True => Ok(true),
        Query::PropValue {
            names,
            values,
            case,
            exact,
        } => {
            let found = scalars_of(alloc, names.as_slice(), document.root())?;
            some_equals(alloc, *case, *exact, found.as_slice(), values.as_slice())
        }
        Query::Range { names, op, values } => {
            let found = scalars_of(alloc, names.as_slice(), document.root())?;
            Ok(some_in_range(*op, found.as_slice(), values.as_slice()))
        }
        Query::Collection(names) => Ok(have_common(document.collections(), names)),
        Query::Directory { uris, infinite } => {
            Ok(in_some_directory(*infinite, document.uri().as_str(), uris.as_slice()))
        }
        Query::DocUri(uris) => Ok(is_among(uris.as_slice(), document.uri().as_str())),
        _ => Ok(false),
    }
}

/// The scalars of the named properties.
fn scalars_of(alloc: Global, names: &[Text], root: &Node) -> Result<Scalars, AllocError>
    ensures { IfOk result (λ found. found ≡ scalars_of names.now root.now) }
{
    let found = scalars(alloc, root)?;
    owned_scalars(alloc, names, found.as_slice())
}

fn owned_scalars(
    alloc: Global,
    names: &[Text],
    found: &[(Option<Text>, Scalar)],
) -> Result<Scalars, AllocError>
    ensures { let owned = filter (λ s. is_named (Some names.now) s.0) found.now in
        IfOk result (λ scalars. scalars ≡ map (λ s. s.1) owned) }
{
    let mut out = Items::new(alloc);
    for scalar in found {
        if is_named(Some(names), &scalar.0) {
            out.push(scalar.1.copy(alloc)?)?;
        }
    }
    Ok(out)
}

/// Whether some scalar equals some wanted one.
fn some_equals(
    alloc: Global,
    case: Case,
    exact: bool,
    found: &[Scalar],
    wanted: &[Scalar],
) -> Result<bool, AllocError>
    ensures { IfOk result (λ b. b ≡ some_pair (scalar_equals case exact) found.now wanted.now) }
{
    for scalar in found {
        if equals_some(alloc, case, exact, scalar, wanted)? {
            return Ok(true);
        }
    }
    Ok(false)
}

fn equals_some(
    alloc: Global,
    case: Case,
    exact: bool,
    scalar: &Scalar,
    wanted: &[Scalar],
) -> Result<bool, AllocError>
    ensures { IfOk result (λ b. b ≡ list_any (λ g. scalar_equals case exact scalar.now g) wanted.now) }
{
    for value in wanted {
        if scalar_equals(alloc, case, exact, scalar, value)? {
            return Ok(true);
        }
    }
    Ok(false)
}

/// Whether some scalar compares so with some wanted one.
fn some_in_range(op: Compare, found: &[Scalar], wanted: &[Scalar]) -> bool
    ensures { result ≡ some_pair (in_range op) found.now wanted.now }
{
    found
        .iter()
        .any(|scalar| in_range_of_some(op, scalar, wanted))
}

fn in_range_of_some(op: Compare, scalar: &Scalar, wanted: &[Scalar]) -> bool
    ensures { result ≡ list_any (λ g. in_range op scalar.now g) wanted.now }
{
    wanted.iter().any(|value| in_range(op, scalar, value))
}

/// Whether some name is one of the names.
fn have_common(names: &Texts, wanted: &Texts) -> bool
    ensures { result ≡ have_common names.now wanted.now }
{
    let names = names.as_slice();
    wanted
        .as_slice()
        .iter()
        .any(|name| is_among(names, name.as_str()))
}

/// Whether a URI is in one of the directories.
fn in_some_directory(infinite: bool, uri: &str, directories: &[Text]) -> bool
    ensures { result ≡ list_any (in_directory infinite uri.now) directories.now }
{
    directories.iter().any(|directory| in_directory(infinite, uri, directory.as_str()))
}
