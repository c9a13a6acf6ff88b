ghost use Rattle.std.specs.Prelude.{◌≡◌, ◌+◌, ◌++◌, [], ◌∷◌, nat_le, IfOk};
ghost use Rattle.std.specs.List.{list_all};
ghost use Rattle.doc_meaning.specs.Near.{is_near, is_within, is_rising};
ghost use Rattle.plain_query.specs.Choices.{is_close, can_be_close};

use sqlite_items::Items;
use std::alloc::{AllocError, Global};

/// Whether one start of each child can be chosen so that no two are further apart than the distance, and they
/// rise where that is asked.
///
/// It goes through the choices, as many as the product of the numbers of starts.
#[tactic(auto, unfolding(doc_meaning::specs::Near::is_near))]
pub fn is_near(
    alloc: Global,
    distance: u32,
    ordered: bool,
    children: &[Items<u64>],
) -> Result<bool, AllocError>
    ensures { IfOk result (λ b. b ≡ is_near distance ordered children.now) }
{
    some_choice(alloc, distance, ordered, &[], children)
}

/// Whether some choice of further starts will do behind those chosen.
fn some_choice(
    alloc: Global,
    distance: u32,
    ordered: bool,
    chosen: &[u64],
    children: &[Items<u64>],
) -> Result<bool, AllocError>
    ensures { IfOk result (λ b. b ≡ can_be_close distance ordered chosen.now children.now) }
{
    let [starts, rest @ ..] = children else {
        return Ok(is_close(distance, ordered, chosen));
    };
    for start in starts.as_slice() {
        let chosen = with_start(alloc, chosen, *start)?;
        if some_choice(alloc, distance, ordered, chosen.as_slice(), rest)? {
            return Ok(true);
        }
    }
    Ok(false)
}

fn with_start(alloc: Global, chosen: &[u64], start: u64) -> Result<Items<u64>, AllocError>
    ensures { IfOk result (λ more. more ≡ chosen.now ++ start ∷ []) }
{
    let mut more = Items::from_slice(alloc, chosen)?;
    more.push(start)?;
    Ok(more)
}

/// Whether these starts are within the distance, and rise where that is asked.
fn is_close(distance: u32, ordered: bool, starts: &[u64]) -> bool
    ensures { result ≡ is_close distance ordered starts.now }
{
    is_within(distance, starts) && (!ordered || is_rising(starts))
}

fn is_within(distance: u32, starts: &[u64]) -> bool
    ensures { result ≡ is_within distance starts.now }
{
    starts.iter().all(|n| reaches(distance, *n, starts))
}

/// Whether the number is at most so much above each start.
fn reaches(distance: u32, n: u64, starts: &[u64]) -> bool
    ensures { result ≡ list_all (λ m. nat_le n (m + distance)) starts.now }
{
    starts
        .iter()
        .all(|m| n.saturating_sub(*m) <= distance as u64)
}

fn is_rising(starts: &[u64]) -> bool
    ensures { result ≡ is_rising starts.now }
{
    match starts {
        [n, m, ..] => *n < *m && is_rising(&starts[1..]),
        _ => true,
    }
}
