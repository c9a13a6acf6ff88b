ghost use Rattle.std.specs.Prelude.{◌<◌, ◌^◌, length, take};
ghost use Rattle.uri_table.specs.Rows.{IsInsertionPoint, IsRising};
ghost use Rattle.uri_table.specs.Ends.{IsEndOf, head_order, uri_order};

use crate::Text;

/// The number of rows whose URI is less than a text.
pub(crate) fn insertion_point(rows: &[(Text, u64)], text: &[u8]) -> u32
    requires rising { IsRising rows.now }
    requires few { length rows.now < 2 ^ 32 }
    ensures { IsInsertionPoint text.now rows.now result }
{
    rows.partition_point(|row| row.0.order(text).is_lt()) as u32
}

/// The number of rows whose URI is at most a text.
pub(crate) fn end_of_uri(rows: &[(Text, u64)], uri: &[u8]) -> u32
    requires rising { IsRising rows.now }
    requires few { length rows.now < 2 ^ 32 }
    ensures { IsEndOf (uri_order uri.now) rows.now result }
{
    rows.partition_point(|row| row.0.order(uri).is_le()) as u32
}

/// The number of rows whose URI is less than a prefix or begins with it.
pub(crate) fn end_of_prefix(rows: &[(Text, u64)], prefix: &[u8]) -> u32
    requires rising { IsRising rows.now }
    requires few { length rows.now < 2 ^ 32 }
    ensures { IsEndOf (head_order prefix.now) rows.now result }
{
    rows.partition_point(|row| row.0.head_order(prefix).is_le()) as u32
}
