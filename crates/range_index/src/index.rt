ghost use Rattle.std.specs.Prelude.{◌≡◌, ◌^◌, ◌<◌, IfOk, Some, length, slice_get};
ghost use Rattle.std.specs.List.Sorted.{IsStrictlyIncreasing};
ghost use Rattle.std.specs.declared.cmp.Ordering.TheVariants.{Equal, Greater, Less};
ghost use Rattle.range_index.specs.Columns.{IsGroup};
ghost use Rattle.range_index.specs.Rows.{FindsFragments, IsRising};

use crate::fragments::distinct;
use crate::groups::{Groups, first_from};
use crate::{Compare, Text};
use std::alloc::{AllocError, Global};
use std::cmp::Ordering;
use std::marker::Model;

/// Rows of a value and a fragment, in the order of their values and then of their fragments. A fragment may have any
/// number of values.
///
/// Contracts see the list of the rows.
#[derive(Debug, Drop)]
pub struct RangeIndex {
    values: Vec<Text>,
    fragments: Vec<u32>,
}

impl Model for RangeIndex {
    ghost use Rattle.std.specs.Prelude.{List, zip};
    ghost use Rattle.range_index.specs.Rows.{Row};
    ghost use Rattle.range_index.specs.Columns.{IsIndex};

    ghost Value = { List Row };

    ghost view = { λ r. zip r.values.items r.fragments.items };

    ghost invariant = { λ r. IsIndex r.values.items r.fragments.items };
}

impl RangeIndex {
    /// An index of these rows, which rise strictly by value and fragment. It moves the values, and takes time in the
    /// number of rows.
    pub fn of(alloc: Global, rows: Vec<(Text, u32)>) -> Result<RangeIndex, AllocError>
        requires rising { IsRising rows.items }
        requires few { length rows.items < 2 ^ 32 }
        ensures { IfOk result (λ index. index ≡ rows.items) }
    {
        let mut values = Vec::with_capacity(alloc, rows.len())?;
        let mut fragments = Vec::with_capacity(alloc, rows.len())?;
        for (value, fragment) in rows {
            values.push(value)?;
            fragments.push(fragment)?;
        }
        Ok(RangeIndex { values, fragments })
    }

    /// The number of rows.
    pub fn len(&self) -> u32
        ensures { result ≡ length self.now }
    {
        self.fragments.len() as u32
    }

    /// The value and the fragment of a row, in constant time.
    pub fn row(&self, i: u32) -> (&Text, u32)
        requires { i < length self.now }
        ensures { slice_get self.now i ≡ Some (result.0.now, result.1) }
    {
        let at = i as usize;
        (&self.values[at], self.fragments[at])
    }

    /// The fragments that have a value which compares so with the given one, each once and in order.
    ///
    /// It takes two binary searches over the values, and then time n log n for a sort of the n rows that it finds; for
    /// `Eq` it takes time n, since the fragments of equal values are in order.
    pub fn matching(&self, alloc: Global, op: Compare, value: &[u8]) -> Result<Vec<u32>, AllocError>
        ensures { IfOk result (λ found. FindsFragments self.now op value.now found.items) }
    {
        let groups = self.groups(value);
        match op {
            Compare::Lt => distinct(alloc, groups.below, &[]),
            Compare::Le => distinct(alloc, groups.below, groups.equal),
            Compare::Gt => distinct(alloc, groups.above, &[]),
            Compare::Ge => distinct(alloc, groups.equal, groups.above),
            Compare::Eq => Vec::from_slice(alloc, groups.equal),
            Compare::Ne => distinct(alloc, groups.below, groups.above),
        }
    }

    /// The fragments of the rows by how their values compare with the given one.
    fn groups(&self, value: &[u8]) -> Groups<'_>
        ensures below { IsGroup self.now value.now Less result.below.now }
        ensures equal { IsGroup self.now value.now Equal result.equal.now }
        ensures above { IsGroup self.now value.now Greater result.above.now }
        ensures rising { IsStrictlyIncreasing result.equal.now }
    {
        let start = first_from(&self.values, value, Ordering::Equal);
        let end = first_from(&self.values, value, Ordering::Greater);
        let (below, others) = self.fragments.as_slice().split_at(start);
        let (equal, above) = others.split_at(end - start);
        Groups {
            below,
            equal,
            above,
        }
    }
}
