ghost use Rattle.std.specs.Prelude.{◌≡◌, IfOk};
ghost use Rattle.doc_filter.specs.Conditions.{MeanQueries, MeansQuery};

use crate::condition::{Condition, Conditions};
use crate::phrase::phrases_of;
use crate::scalar_test::ScalarTest;
use crate::values::Values;
use doc_model::{Queries, Query, Scalar, Scalars};
use sqlite_items::{Boxed, Items};
use std::alloc::{AllocError, Global};

/// The condition that a query states. Everything in it is copied, and its texts are cut and folded.
#[cycle(prepare)]
pub fn prepare(alloc: Global, query: &Query) -> Result<Condition, AllocError>
    ensures { IfOk result (λ condition. MeansQuery condition query.now) }
{
    match query {
        Query::True => Ok(Condition::True),
        Query::False => Ok(Condition::False),
        Query::And(queries) => Ok(Condition::And(prepare_all(alloc, queries)?)),
        Query::Or(queries) => Ok(Condition::Or(prepare_all(alloc, queries)?)),
        Query::Not(query) => {
            let child = prepare(alloc, query.get())?;
            Ok(Condition::Not(Boxed::new(alloc, child)?))
        }
        Query::AndNot { positive, negative } => {
            let positive = prepare(alloc, positive.get())?;
            let negative = prepare(alloc, negative.get())?;
            Ok(Condition::AndNot {
                positive: Boxed::new(alloc, positive)?,
                negative: Boxed::new(alloc, negative)?,
            })
        }
        Query::Word { texts, case } => Ok(Condition::Word {
            phrases: phrases_of(alloc, texts.as_slice(), *case)?,
        }),
        Query::PropWord { names, texts, case } => Ok(Condition::PropWord {
            names: names.copy(alloc)?,
            phrases: phrases_of(alloc, texts.as_slice(), *case)?,
        }),
        Query::PropValue {
            names,
            values,
            case,
            exact,
        } => Ok(Condition::Scalars {
            names: names.copy(alloc)?,
            test: ScalarTest::Equal(Values::new(alloc, values.as_slice(), *case, *exact)?),
        }),
        Query::Range { names, op, values } => Ok(Condition::Scalars {
            names: names.copy(alloc)?,
            test: ScalarTest::Range(*op, copy_scalars(alloc, values.as_slice())?),
        }),
        Query::Near {
            queries,
            distance,
            ordered,
        } => Ok(Condition::Near {
            children: prepare_all(alloc, queries)?,
            distance: *distance,
            ordered: *ordered,
        }),
        Query::Collection(names) => Ok(Condition::Collection(names.copy(alloc)?)),
        Query::Directory { uris, infinite } => Ok(Condition::Directory {
            uris: uris.copy(alloc)?,
            infinite: *infinite,
        }),
        Query::DocUri(uris) => Ok(Condition::DocUri(uris.copy(alloc)?)),
    }
}

#[cycle(prepare)]
fn prepare_all(alloc: Global, queries: &Queries) -> Result<Conditions, AllocError>
    ensures { IfOk result (λ conditions. MeanQueries conditions queries.now) }
{
    let mut out = Items::new(alloc);
    for query in queries.as_slice() {
        out.push(prepare(alloc, query)?)?;
    }
    Ok(out)
}

fn copy_scalars(alloc: Global, scalars: &[Scalar]) -> Result<Scalars, AllocError>
    ensures { IfOk result (λ copied. copied ≡ scalars.now) }
{
    let mut out = Items::new(alloc);
    for scalar in scalars {
        out.push(scalar.copy(alloc)?)?;
    }
    Ok(out)
}
