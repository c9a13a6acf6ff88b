ghost use Rattle.std.specs.Prelude.{◌≡◌};
ghost use Rattle.std.specs.List.{list_all};
ghost use Rattle.doc_model.specs.Queries.{directories_end, ends_with_slash};

use crate::{Queries, Query, Text};

fn ends_with_slash(uri: &str) -> bool
    ensures { result ≡ ends_with_slash uri.now }
{
    match uri.as_bytes() {
        [.., last] => *last == b'/',
        [] => false,
    }
}

fn all_end_with_slash(uris: &[Text]) -> bool
    ensures { result ≡ list_all ends_with_slash uris.now }
{
    uris.iter().all(|uri| ends_with_slash(uri.as_str()))
}

/// Whether the URI of each directory ends with a slash.
#[cycle(directories)]
pub fn directories_end(query: &Query) -> bool
    ensures { result ≡ directories_end query.now }
{
    match query {
        Query::Directory { uris, .. } => all_end_with_slash(uris.as_slice()),
        Query::And(queries) => all_directories_end(queries),
        Query::Or(queries) => all_directories_end(queries),
        Query::Near { queries, .. } => all_directories_end(queries),
        Query::Not(query) => directories_end(query.get()),
        Query::AndNot { positive, negative } => {
            directories_end(positive.get()) && directories_end(negative.get())
        }
        _ => true,
    }
}

#[cycle(directories)]
fn all_directories_end(queries: &Queries) -> bool
    ensures { result ≡ list_all directories_end queries.now }
{
    for query in queries.as_slice() {
        if !directories_end(query) {
            return false;
        }
    }
    true
}
