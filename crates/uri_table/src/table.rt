ghost use Rattle.std.specs.Prelude.{◌≡◌, ◌<◌, ◌^◌, length, slice_get, Some, IfOk};
ghost use Rattle.uri_table.specs.Rows.{HasPrefix, HasUri, IsInsertionPoint, IsRising, IsRun};

use crate::Text;
use crate::ends::{end_of_prefix, end_of_uri, insertion_point};
use std::alloc::{AllocError, Global};
use std::marker::Model;

/// The rows (URI, created stamp) of a part's fragments, in the order of the fragments: each comes before the next by
/// the bytes of the URI, and then by the created stamp. Contracts see the list of the rows.
#[derive(Debug, Drop)]
pub struct UriTable {
    rows: Vec<(Text, u64)>,
}

impl Model for UriTable {
    ghost use Rattle.std.specs.Prelude.{List, ℕ, ◌<◌, ◌^◌, length};
    ghost use Rattle.std.specs.Coded.{coded_list, coded_ℕ, coded×};
    ghost use Rattle.uri_table.specs.Rows.{IsRising};

    ghost Value = { List (List ℕ × ℕ) };

    ghost coded = { coded_list (coded× (coded_list coded_ℕ) coded_ℕ) };

    ghost view = { λ t. t.rows.items };

    ghost invariant = { λ t. IsRising t.rows.items × (length t.rows.items < 2 ^ 32) };
}

impl UriTable {
    /// The table of these rows. It keeps their memory, and takes no more.
    pub fn of(_alloc: Global, rows: Vec<(Text, u64)>) -> Result<UriTable, AllocError>
        requires rising { IsRising rows.items }
        requires few { length rows.items < 2 ^ 32 }
        ensures { IfOk result (λ table. table ≡ rows.items) }
    {
        Ok(UriTable { rows })
    }

    /// The number of rows, in constant time. That they rise is told here, since every table keeps it.
    pub fn len(&self) -> u32
        ensures len { result ≡ length self.now }
        ensures rising { IsRising self.now }
    {
        self.rows.len() as u32
    }

    /// A row: its URI and its created stamp, in constant time.
    pub fn row(&self, i: u32) -> (&Text, u64)
        requires { i < length self.now }
        ensures { slice_get self.now i ≡ Some (result.0.now, result.1) }
    {
        let row = &self.rows[i as usize];
        (&row.0, row.1)
    }

    /// The rows of a URI: the index of the first one, and the index after the last one. It takes no memory, and time in
    /// the length of the URI times the logarithm of the number of rows.
    pub fn find(&self, uri: &str) -> (u32, u32)
        ensures run { IsRun self.now result.0 result.1 (HasUri uri.now) }
        ensures point { IsInsertionPoint uri.now self.now result.0 }
    {
        let (rows, uri) = (self.rows.as_slice(), uri.as_bytes());
        (insertion_point(rows, uri), end_of_uri(rows, uri))
    }

    /// The rows whose URI begins with a prefix, as `find` returns them, at the same cost.
    pub fn prefix_range(&self, prefix: &str) -> (u32, u32)
        ensures run { IsRun self.now result.0 result.1 (HasPrefix prefix.now) }
        ensures point { IsInsertionPoint prefix.now self.now result.0 }
    {
        let (rows, prefix) = (self.rows.as_slice(), prefix.as_bytes());
        (insertion_point(rows, prefix), end_of_prefix(rows, prefix))
    }
}
