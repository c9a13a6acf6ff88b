ghost use Rattle.std.specs.Prelude.{length, ◌≤◌};
ghost use Rattle.range_index.specs.Columns.{IsFirstFrom, NeverFall};

use crate::Text;
use std::cmp::Ordering;

/// The fragments of an index in three groups of rows, by how their values compare with a given one.
#[derive(Clone, Copy)]
pub(crate) struct Groups<'a> {
    pub(crate) below: &'a [u32],
    pub(crate) equal: &'a [u32],
    pub(crate) above: &'a [u32],
}

/// The place of the first value that compares with the given one as `from` or higher, by a binary search.
pub(crate) fn first_from(values: &[Text], value: &[u8], from: Ordering) -> usize
    requires { NeverFall values.now }
    ensures { IsFirstFrom values.now value.now from result }
{
    values.partition_point(|text| text.as_bytes().cmp(&value) < from)
}
