ghost use Rattle.std.specs.Prelude.{◌≡◌, ℕ, List, IfOk, OnOk};
ghost use Rattle.std.specs.BTreeMap.{get};
ghost use Rattle.std.specs.Cmp.Lexicographic.{slice_cmp};
ghost use Rattle.std.specs.Ordering.{nat_cmp};
ghost use Rattle.json_text.specs.Grammar.{last_values, put};
ghost use Rattle.json_text.specs.Places.{place_of, Places};

use doc_model::{Members, Node, Text};
use sqlite_items::Items;
use std::alloc::{AllocError, Global};
use std::collections::BTreeMap;

/// So many members are looked through for a name, which takes no memory.
const FEW: usize = 8;

/// The place of the first member of this name.
fn place_in(members: &[(Text, Node)], name: &str) -> Option<usize>
    ensures { result ≡ place_of members.now name.now }
{
    for (i, member) in members.iter().enumerate() {
        if member.0.as_str() == name {
            return Some(i);
        }
    }
    None
}

/// Puts a member to those that count: in the place of its name, or behind all.
fn put_at(
    kept: &mut Vec<(Text, Node)>,
    place: Option<usize>,
    name: Text,
    value: Node,
) -> Result<(), AllocError>
    requires { place ≡ place_of kept.old.items name }
    ensures { OnOk result (kept.new.items ≡ put kept.old.items (name, value)) }
{
    match place {
        Some(place) => {
            let member = &mut kept[place];
            member.1 = value;
            Ok(())
        }
        None => Ok(kept.push((name, value))?),
    }
}

/// The same, where a map has the places of all names.
fn put(
    alloc: Global,
    kept: &mut Vec<(Text, Node)>,
    places: &mut BTreeMap<Text, usize>,
    name: Text,
    value: Node,
) -> Result<(), AllocError>
    requires { Places places.old kept.old.items }
    ensures kept { OnOk result (kept.new.items ≡ put kept.old.items (name, value)) }
    ensures places { OnOk result (Places places.new kept.new.items) }
{
    match places.get(&name) {
        Some(place) => {
            let place = *place;
            put_at(kept, Some(place), name, value)
        }
        None => {
            places.insert(name.copy(alloc)?, kept.len())?;
            put_at(kept, None, name, value)
        }
    }
}

fn few_values(alloc: Global, written: Vec<(Text, Node)>) -> Result<Vec<(Text, Node)>, AllocError>
    ensures { IfOk result (λ kept. kept.items ≡ last_values written.items) }
{
    let mut kept = Vec::with_capacity(alloc, written.len())?;
    for (name, value) in written {
        let place = place_in(&kept, name.as_str());
        put_at(&mut kept, place, name, value)?;
    }
    Ok(kept)
}

fn many_values(alloc: Global, written: Vec<(Text, Node)>) -> Result<Vec<(Text, Node)>, AllocError>
    ensures { IfOk result (λ kept. kept.items ≡ last_values written.items) }
{
    let mut kept = Vec::with_capacity(alloc, written.len())?;
    let mut places = BTreeMap::new(alloc);
    for (name, value) in written {
        put(alloc, &mut kept, &mut places, name, value)?;
    }
    Ok(kept)
}

/// The members of an object as they count, from those that are written, in time n log n.
pub(crate) fn last_values(alloc: Global, written: Vec<(Text, Node)>) -> Result<Members, AllocError>
    ensures { IfOk result (λ m. m ≡ last_values written.items) }
{
    let kept = if written.len() <= FEW {
        few_values(alloc, written)?
    } else {
        many_values(alloc, written)?
    };
    Ok(Items::from_vec(kept))
}
