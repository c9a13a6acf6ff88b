ghost use Rattle.std.specs.Prelude.{◌≡◌, ◌+◌, ◌<◌, ◌^◌, ◌++◌, OnOk, length, map};
ghost use Rattle.doc_meaning.specs.Meaning.{is_nonempty};
ghost use Rattle.doc_meaning.specs.Strings.{positions};

use doc_model::Text;
use sqlite_items::Items;
use std::alloc::AllocError;

/// Whether the wanted words occur one after another among the seen ones. False where no word is wanted.
pub fn occur_in(wanted: &[Text], seen: &[Text]) -> bool
    ensures { result ≡ is_nonempty (positions wanted.now seen.now) }
{
    if wanted.is_empty() {
        return false;
    }
    for j in 0..seen.len() {
        if seen[j..].starts_with(wanted) {
            return true;
        }
    }
    false
}

/// Adds where they occur there, as numbers of words that begin at the base.
pub fn add_positions(
    wanted: &[Text],
    seen: &[Text],
    first_position: u64,
    out: &mut Items<u64>,
) -> Result<(), AllocError>
    requires { first_position + length seen.now < 2 ^ 64 }
    ensures { OnOk result (out.new ≡ out.old ++ map (λ j. first_position + j) (positions wanted.now seen.now)) }
{
    if wanted.is_empty() {
        return Ok(());
    }
    for place in 0..seen.len() {
        if seen[place..].starts_with(wanted) {
            out.push(first_position + place as u64)?;
        }
    }
    Ok(())
}
