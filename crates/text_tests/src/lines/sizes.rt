//! A put whose document is at the limit on its size. Its line is longer than those of a session.

use client_lines::{LineRefusal, read_line};
use std::alloc::Global;
use std::test::Fail;
use transcript::{BadKind, Command};

/// The most that the nodes of a document and the bytes of its texts, names and URI may be together.
const LARGEST: usize = 16_777_216;

// A line that puts a text under `/a`, so that the document has this size.
fn line(alloc: Global, size: usize) -> Result<Vec<u8>, Fail> {
    // The node and the two bytes of the URI count too.
    let text = vec![in alloc; b'x'; size.saturating_sub(3)]?;
    let mut line = b"put /a \"".to_vec(alloc)?;
    line.extend_from_slice(&text)?;
    line.extend_from_slice(b"\"")?;
    Ok(line)
}

// Whether a commit is read of that line, or its refusal.
fn read(alloc: Global, size: usize) -> Result<Result<bool, LineRefusal>, Fail> {
    let line = line(alloc, size)?;
    Ok(read_line(alloc, &line).map(|asked| matches!(asked, Some(Command::Commit(_)))))
}

#[test]
fn a_document_may_be_so_large_and_no_larger(rt: HostRuntime) -> Result<(), Fail> {
    let refusal = LineRefusal::Bad {
        kind: BadKind::Ops,
        place: 0,
    };
    assert_eq!(rt; read(rt.alloc(), LARGEST)?, Ok(true));
    assert_eq!(rt; read(rt.alloc(), LARGEST.saturating_add(1))?, Err(refusal));
    Ok(())
}
