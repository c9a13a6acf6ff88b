//! A table of URIs, and the rows that it finds.

ghost use Rattle.std.specs.Prelude.{◌≡◌, IsTrue};
ghost use Rattle.std.specs.Cmp.Lexicographic.{slice_cmp};
ghost use Rattle.std.specs.Ordering.{is_lt, nat_cmp, ordering_then};
ghost use Rattle.uri_table.specs.Rows.{IsRising};

use std::alloc::{AllocError, Global};
use std::test::Fail;
use uri_table::{Text, UriTable};

fn comes_before(a: &(Text, u64), b: &(Text, u64)) -> bool
    ensures { result ≡ is_lt (ordering_then (slice_cmp nat_cmp a.now.0 b.now.0) (nat_cmp a.now.1 b.now.1)) }
{
    let uris = a.0.as_slice().cmp(b.0.as_slice());
    uris.then(a.1.cmp(&b.1)).is_lt()
}

fn rise(rows: &[(Text, u64)]) -> bool
    ensures { IsTrue result → IsRising rows.now }
{
    rows.is_sorted_by(|a, b| comes_before(a, b))
}

fn rows_of(alloc: Global, uris: &[(&str, u64)]) -> Result<Vec<(Text, u64)>, AllocError> {
    let mut rows = Vec::new(alloc);
    for (uri, created) in uris {
        let text = Text::from_vec(Vec::from_slice(alloc, uri.as_bytes())?);
        rows.push((text, *created))?;
    }
    Ok(rows)
}

fn table_of(alloc: Global, uris: &[(&str, u64)]) -> Result<UriTable, Fail> {
    let rows = rows_of(alloc, uris)?;
    if rows.len() > 100 || !rise(&rows) {
        return Err("these aren't rows".into());
    }
    Ok(UriTable::of(alloc, rows)?)
}

/// The runs of a URI and of a prefix.
type Runs = ((u32, u32), (u32, u32));

fn runs(table: &UriTable, text: &str) -> Runs {
    (table.find(text), table.prefix_range(text))
}

const ROWS: [(&str, u64); 6] = [
    ("/a", 1),
    ("/a", 4),
    ("/a/b", 2),
    ("/ab", 3),
    ("/ab", 9),
    ("/é", 5),
];

const CASES: [(&str, Runs); 8] = [
    ("", ((0, 0), (0, 6))),
    ("/", ((0, 0), (0, 6))),
    ("/a", ((0, 2), (0, 5))),
    ("/a/", ((2, 2), (2, 3))),
    ("/ab", ((3, 5), (3, 5))),
    ("/abc", ((5, 5), (5, 5))),
    ("/é", ((5, 6), (5, 6))),
    ("0", ((6, 6), (6, 6))),
];

#[test]
fn rows_of_a_uri_and_of_a_prefix(rt: HostRuntime) -> Result<(), Fail> {
    let table = table_of(rt.alloc(), &ROWS)?;
    for (text, wanted) in CASES {
        assert_eq!(rt; runs(&table, text), wanted, "{text:?}");
    }
    Ok(())
}

#[test]
fn a_row_has_its_uri_and_its_created_stamp(rt: HostRuntime) -> Result<(), Fail> {
    let table = table_of(rt.alloc(), &ROWS)?;
    assert_eq!(rt; table.len(), 6);
    if 1 < table.len() {
        let (uri, created) = table.row(1);
        let copy = uri.copy(rt.alloc())?.into_vec();
        assert_eq!(rt; (copy.as_slice(), created), (b"/a".as_slice(), 4));
    }
    Ok(())
}
