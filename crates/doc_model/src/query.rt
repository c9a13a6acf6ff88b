ghost use Rattle.std.specs.Prelude.{◌≡◌, IfOk};

use crate::scalar::copy_scalars;
use crate::{Scalars, Texts};
use sqlite_items::{Boxed, Items};
use std::alloc::{AllocError, Global};

/// Whether upper and lower case differ in a query text. `Auto`: they do where the text has a capital.
#[derive(Clone, Copy, Debug, PartialEq, Eq)]
pub enum Case {
    Auto,
    Sensitive,
    Insensitive,
}

/// How a range query compares the value of a document (left) with its own (right).
#[derive(Clone, Copy, Debug, PartialEq, Eq)]
pub enum Compare {
    Lt,
    Le,
    Gt,
    Ge,
    Eq,
    Ne,
}

/// A query, of fourteen forms named after MarkLogic's cts queries.
#[derive(Debug, Drop)]
pub enum Query {
    True,
    False,
    /// Every child holds; so it does without children.
    And(Items<Query>),
    /// Some child holds.
    Or(Items<Query>),
    Not(Boxed<Query>),
    /// The first holds and the second doesn't.
    AndNot {
        positive: Boxed<Query>,
        negative: Boxed<Query>,
    },
    /// Some text occurs in the document.
    Word {
        texts: Texts,
        case: Case,
    },
    /// Some text occurs in a text value of one of the named properties.
    PropWord {
        names: Texts,
        texts: Texts,
        case: Case,
    },
    /// A scalar of one of the named properties equals some value: texts by their words or, if `exact`, as strings.
    PropValue {
        names: Texts,
        values: Scalars,
        case: Case,
        exact: bool,
    },
    /// A scalar of one of the named properties compares so with some value.
    Range {
        names: Texts,
        op: Compare,
        values: Scalars,
    },
    /// Each child starts at some word so that the greatest number less the least is at most `distance`, and they
    /// rise in the children's order if `ordered`.
    Near {
        queries: Items<Query>,
        distance: u32,
        ordered: bool,
    },
    /// The document is in one of these collections.
    Collection(Texts),
    /// The URI is one of these and a rest, which isn't empty and has no slash unless `infinite`.
    Directory {
        uris: Texts,
        infinite: bool,
    },
    /// The URI is one of these.
    DocUri(Texts),
}

/// The children of a query, in order.
pub type Queries = Items<Query>;

impl Query {
    /// An equal query, in time and memory of its size. It goes as deep as the query.
    #[cycle(copy_query)]
    pub fn copy(&self, alloc: Global) -> Result<Query, AllocError>
        ensures { IfOk result (λ q. q ≡ self.now) }
    {
        match self {
            Query::True => Ok(Query::True),
            Query::False => Ok(Query::False),
            Query::And(queries) => Ok(Query::And(copy_queries(alloc, queries)?)),
            Query::Or(queries) => Ok(Query::Or(copy_queries(alloc, queries)?)),
            Query::Not(query) => Ok(Query::Not(Boxed::new(alloc, query.get().copy(alloc)?)?)),
            Query::AndNot { positive, negative } => Ok(Query::AndNot {
                positive: Boxed::new(alloc, positive.get().copy(alloc)?)?,
                negative: Boxed::new(alloc, negative.get().copy(alloc)?)?,
            }),
            Query::Word { texts, case } => Ok(Query::Word {
                texts: texts.copy(alloc)?,
                case: *case,
            }),
            Query::PropWord { names, texts, case } => Ok(Query::PropWord {
                names: names.copy(alloc)?,
                texts: texts.copy(alloc)?,
                case: *case,
            }),
            Query::PropValue {
                names,
                values,
                case,
                exact,
            } => Ok(Query::PropValue {
                names: names.copy(alloc)?,
                values: copy_scalars(alloc, values)?,
                case: *case,
                exact: *exact,
            }),
            Query::Range { names, op, values } => Ok(Query::Range {
                names: names.copy(alloc)?,
                op: *op,
                values: copy_scalars(alloc, values)?,
            }),
            Query::Near {
                queries,
                distance,
                ordered,
            } => Ok(Query::Near {
                queries: copy_queries(alloc, queries)?,
                distance: *distance,
                ordered: *ordered,
            }),
            Query::Collection(uris) => Ok(Query::Collection(uris.copy(alloc)?)),
            Query::Directory { uris, infinite } => Ok(Query::Directory {
                uris: uris.copy(alloc)?,
                infinite: *infinite,
            }),
            Query::DocUri(uris) => Ok(Query::DocUri(uris.copy(alloc)?)),
        }
    }
}

#[cycle(copy_query)]
fn copy_queries(alloc: Global, queries: &Queries) -> Result<Queries, AllocError>
    ensures { IfOk result (λ q. q ≡ queries.now) }
{
    let mut out = Items::new(alloc);
    for query in queries.as_slice() {
        out.push(query.copy(alloc)?)?;
    }
    Ok(out)
}
