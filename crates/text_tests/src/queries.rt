//! A query that no text says, so that no row can have it: its text, and its rules.

use cts_text::write;
use doc_model::{Compare, Indexes, Query, Scalar, Scalars, Text, Texts, check_query};
use std::alloc::{AllocError, Global};
use std::test::Fail;

// A range query whose values are no numbers and no texts.
fn odd_range(alloc: Global) -> Result<Query, AllocError> {
    let mut names = Texts::new(alloc);
    names.push(Text::from_str(alloc, "p")?)?;
    let mut values = Scalars::new(alloc);
    for value in [Scalar::Null, Scalar::Bool(true), Scalar::Bool(false)] {
        values.push(value)?;
    }
    Ok(Query::Range {
        names,
        op: Compare::Le,
        values,
    })
}

#[test]
fn null_and_booleans_are_written_in_a_range_query(rt: HostRuntime) -> Result<(), Fail> {
    let wanted =
        r#"{"jsonPropertyRangeQuery":{"property":["p"],"operator":"<=","value":[null,true,false]}}"#;
    let written = write(rt.alloc(), &odd_range(rt.alloc())?)?;
    assert_eq!(rt; written.as_str(), wanted);
    Ok(())
}

#[test]
fn null_and_booleans_need_no_index(rt: HostRuntime) -> Result<(), Fail> {
    let query = odd_range(rt.alloc())?;
    let none = Indexes::none(rt.alloc());
    assert!(rt; check_query(rt.alloc(), &query, &none).is_ok());
    Ok(())
}
