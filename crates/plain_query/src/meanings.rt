ghost use Rattle.std.specs.Prelude.{◌≡◌, ◌++◌, IfOk, OnOk, map, flat_map};
ghost use Rattle.std.specs.List.{list_any, list_all};
ghost use Rattle.std.specs.Option.{option_copied};
ghost use Rattle.doc_meaning.specs.Meaning.{meaning, plainly, from_starts, word_starts};
ghost use Rattle.doc_meaning.specs.Near.{is_near};
ghost use Rattle.doc_meaning.specs.Strings.{strings};

use crate::leaves::leaf_holds;
use crate::text_starts::word_starts;
use crate::{is_near, strings};
use doc_meaning::Meaning;
use doc_model::{Case, Document, Queries, Query, Text};
use sqlite_items::Items;
use std::alloc::{AllocError, Global};

/// What a query says of a document: whether it holds, and the numbers of the words at which it starts.
#[cycle(meaning)]
pub fn meaning(alloc: Global, query: &Query, document: &Document) -> Result<Meaning, AllocError>
    ensures { IfOk result (λ m. m ≡ meaning document.now query.now) }
{
    match query {
        Query::And(queries) => Ok(all_of(alloc, meanings(alloc, queries, document)?.as_slice())),
        Query::Or(queries) => any_of(alloc, meanings(alloc, queries, document)?.as_slice()),
        Query::Not(query) => Ok(plainly(alloc, !meaning(alloc, query.get(), document)?.holds)),
        Query::AndNot { positive, negative } => {
            let positive = meaning(alloc, positive.get(), document)?;
            let negative = meaning(alloc, negative.get(), document)?;
            Ok(plainly(alloc, positive.holds && !negative.holds))
        }
        Query::Near {
            queries,
            distance,
            ordered,
        } => {
            let all = meanings(alloc, queries, document)?;
            near_meaning(alloc, *distance, *ordered, all.as_slice())
        }
        Query::Word { texts, case } => word_meaning(alloc, document, texts.as_slice(), *case, None),
        Query::PropWord { names, texts, case } => {
            let names = Some(names.as_slice());
            word_meaning(alloc, document, texts.as_slice(), *case, names)
        }
        _ => Ok(plainly(alloc, leaf_holds(alloc, query, document)?)),
    }
}

#[cycle(meaning)]
fn meanings(
    alloc: Global,
    queries: &Queries,
    document: &Document,
) -> Result<Items<Meaning>, AllocError>
    ensures { IfOk result (λ all. all ≡ map (meaning document.now) queries.now) }
{
    let mut out = Items::new(alloc);
    for query in queries.as_slice() {
        out.push(meaning(alloc, query, document)?)?;
    }
    Ok(out)
}

fn plainly(alloc: Global, holds: bool) -> Meaning
    ensures { result ≡ plainly holds }
{
    Meaning {
        holds,
        starts: Items::new(alloc),
    }
}

fn all_of(alloc: Global, meanings: &[Meaning]) -> Meaning
    ensures { result ≡ plainly (list_all (λ q. q.holds) meanings.now) }
{
    plainly(alloc, all_hold(meanings))
}

fn all_hold(meanings: &[Meaning]) -> bool
    ensures { result ≡ list_all (λ q. q.holds) meanings.now }
{
    meanings.iter().all(|m| m.holds)
}

fn any_of(alloc: Global, meanings: &[Meaning]) -> Result<Meaning, AllocError>
    ensures holds { IfOk result (λ m. m.holds ≡ list_any (λ q. q.holds) meanings.now) }
    ensures starts { IfOk result (λ m. m.starts ≡ flat_map (λ q. q.starts) meanings.now) }
{
    let starts = joined_starts(alloc, meanings)?;
    let holds = meanings.iter().any(|m| m.holds);
    Ok(Meaning { holds, starts })
}

fn joined_starts(alloc: Global, meanings: &[Meaning]) -> Result<Items<u64>, AllocError>
    ensures { IfOk result (λ starts. starts ≡ flat_map (λ q. q.starts) meanings.now) }
{
    let mut starts = Items::new(alloc);
    for m in meanings {
        starts.append(Items::from_slice(alloc, m.starts.as_slice())?)?;
    }
    Ok(starts)
}

fn near_meaning(
    alloc: Global,
    distance: u32,
    ordered: bool,
    meanings: &[Meaning],
) -> Result<Meaning, AllocError>
    ensures { IfOk result (λ m. m ≡ plainly (is_near distance ordered (map (λ q. q.starts) meanings.now))) }
{
    let starts = starts_of(alloc, meanings)?;
    let near = is_near(alloc, distance, ordered, starts.as_slice())?;
    Ok(plainly(alloc, near))
}

fn starts_of(alloc: Global, meanings: &[Meaning]) -> Result<Items<Items<u64>>, AllocError>
    ensures { IfOk result (λ starts. starts ≡ map (λ q. q.starts) meanings.now) }
{
    let mut out = Items::new(alloc);
    for m in meanings {
        out.push(Items::from_slice(alloc, m.starts.as_slice())?)?;
    }
    Ok(out)
}

/// What a query for some of the texts says, in the named properties or in all.
#[tactic(auto, using(doc_meaning::proofs::FitLemmas::document_fits))]
fn word_meaning(
    alloc: Global,
    document: &Document,
    texts: &[Text],
    case: Case,
    names: Option<&[Text]>,
) -> Result<Meaning, AllocError>
    ensures { let found = strings document.now.root in
        let starts = word_starts found texts.now case (option_copied names.entry) in
        IfOk result (λ m. m ≡ from_starts starts) }
{
    let found = strings(alloc, document.root())?;
    let starts = word_starts(alloc, found.as_slice(), texts, case, names)?;
    Ok(Meaning {
        holds: !starts.is_empty(),
        starts,
    })
}
