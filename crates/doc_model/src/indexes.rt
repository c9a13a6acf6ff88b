ghost use Rattle.std.specs.Prelude.{◌≡◌, [], IfOk, IsSome, IfSome, ◌↔◌, IsTrue};
ghost use Rattle.doc_model.specs.Queries.{is_indexed, is_index_list, no_index_twice};

use crate::Text;
use crate::limits::MAX_INDEXES;
use sqlite_items::Items;
use std::alloc::{AllocError, Global};
use std::marker::Model;

/// The type of the values that a range index orders.
#[derive(Clone, Copy, Debug, PartialEq, Eq)]
pub enum Kind {
    Decimal,
    Text,
}

/// The range indexes of a database: at most 64 distinct pairs of a property's name and a kind, in the order in
/// which they were declared.
#[derive(Debug, Drop)]
pub struct Indexes {
    list: Items<(Text, Kind)>,
}

impl Model for Indexes {
    ghost use Rattle.std.specs.Prelude.{List, ℕ, IsTrue};
    ghost use Rattle.std.specs.Coded.{coded_list, coded_ℕ, coded×};
    ghost use Rattle.doc_model.specs.declared.indexes.Kind.{Kind};
    ghost use Rattle.doc_model.specs.contracts.indexes.Kind as kind;
    ghost use Rattle.doc_model.specs.Queries.{is_index_list};

    ghost Value = { List (List ℕ × Kind) };

    ghost coded = { coded_list (coded× (coded_list coded_ℕ) kind.the_row.coded) };

    ghost view = { λ x. x.list };

    ghost invariant = { λ x. IsTrue (is_index_list x.list) };
}

impl Indexes {
    /// No range index.
    pub fn none(alloc: Global) -> Indexes
        ensures { result ≡ [] }
    {
        Indexes {
            list: Items::new(alloc),
        }
    }

    /// These range indexes. `None` says that there are more than 64, or that a pair is there twice.
    pub fn new(list: Vec<(Text, Kind)>) -> Option<Indexes>
        ensures kept { IfSome result (λ x. x ≡ list.items) }
        ensures some { IsSome result ↔ IsTrue (is_index_list list.items) }
    {
        if list.len() <= MAX_INDEXES && is_distinct(&list) {
            Some(Indexes {
                list: Items::from_vec(list),
            })
        } else {
            None
        }
    }

    /// The pairs, in the order in which they were declared.
    pub fn as_slice(&self) -> &[(Text, Kind)]
        ensures value { result.now ≡ self.now }
        ensures rules { IsTrue (is_index_list self.now) }
    {
        self.list.as_slice()
    }

    /// Whether there is an index of this property and kind.
    pub fn has(&self, name: &str, kind: Kind) -> bool
        ensures { result ≡ is_indexed self.now (name.now, kind) }
    {
        has_pair(self.list.as_slice(), name, kind)
    }

    /// Equal indexes, in time and memory of their names.
    pub fn copy(&self, alloc: Global) -> Result<Indexes, AllocError>
        ensures { IfOk result (λ x. x ≡ self.now) }
    {
        let list = copy_list(alloc, &self.list)?;
        Ok(Indexes { list })
    }
}

fn has_pair(list: &[(Text, Kind)], name: &str, kind: Kind) -> bool
    ensures { result ≡ is_indexed list.now (name.now, kind) }
{
    list.iter()
        .any(|index| name == index.0.as_str() && kind == index.1)
}

fn is_distinct(list: &[(Text, Kind)]) -> bool
    ensures { result ≡ no_index_twice list.now }
{
    for (i, index) in list.iter().enumerate() {
        if has_pair(&list[i + 1..], index.0.as_str(), index.1) {
            return false;
        }
    }
    true
}

fn copy_list(alloc: Global, list: &Items<(Text, Kind)>) -> Result<Items<(Text, Kind)>, AllocError>
    ensures { IfOk result (λ x. x ≡ list.now) }
{
    let mut out = Items::new(alloc);
    for index in list.as_slice() {
        out.push((index.0.copy(alloc)?, index.1))?;
    }
    Ok(out)
}
