use doc_model::{Document, Text};
use docs_format::*;
use std::alloc::Global;
use std::test::*;

/// The document `1` under `/a`, in no collection.
const ONE: &[u8; 27] = b"\0\0\0\x02/a\0\0\0\0\x03\0\0\0\0\0\0\0\0\x0D\xE0\xB6\xB3\xA7\x64\0\0";

/// The document `1` under `/a`, read from its bytes.
fn one(alloc: Global) -> Result<Document, Fail> {
    Ok(
        decode(alloc, ONE)
            .ok()
            .ok_or("the bytes are those of a document")?,
    )
}

/// Puts a number, a count and a short text.
fn put_fields(body: &mut Vec<u8>, text: &Text) -> Result<(), Fail> {
    if text.as_str().len() > 1024 {
        return Err("the text is long".into());
    }
    put_long(body, 0x0102_0304_0506_0708)?;
    put_count(body, 9)?;
    put_text(body, text)?;
    Ok(())
}

/// The document `1` behind a kind, and before three fields.
fn long_body(alloc: Global) -> Result<Vec<u8>, Fail> {
    let one = one(alloc)?;
    let mut body = Vec::new(alloc);
    put_kind(&mut body, 7)?;
    put_document(&mut body, &one)?;
    put_fields(&mut body, one.uri())?;
    Ok(body)
}

#[test]
fn a_document_stands_in_a_longer_body(rt: HostRuntime) -> Result<(), Fail> {
    let alloc = rt.alloc();
    let body = long_body(alloc)?;
    let mut reader = Reader::new(&body);
    assert_eq!(rt; reader.kind(), Ok(7));
    let again = document(alloc, &mut reader)
        .ok()
        .ok_or("a document is in front")?;
    assert_eq!(rt; (again.uri().as_str(), reader.left()), ("/a", 18));
    Ok(())
}

#[test]
fn fields_are_read_in_their_order(rt: HostRuntime) -> Result<(), Fail> {
    let alloc = rt.alloc();
    let mut body = Vec::new(alloc);
    put_fields(&mut body, &Text::from_str(alloc, "/a")?)?;
    let mut reader = Reader::new(&body);
    let numbers = (reader.long(), reader.count());
    assert_eq!(rt; numbers, (Ok(0x0102_0304_0506_0708), Ok(9)));
    assert_eq!(rt; (reader.text(), reader.left()), (Ok("/a"), 0));
    Ok(())
}
