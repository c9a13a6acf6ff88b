//! Fields that are put one after the other, and read in their order.

use byte_formats::{Reader, put_bytes, put_count, put_kind, put_leb, put_long, put_mark, put_text};
use std::alloc::{AllocError, Global};
use std::test::*;

/// One field of each kind.
fn fields(alloc: Global) -> Result<Vec<u8>, AllocError> {
    let mut out = Vec::new(alloc);
    put_kind(&mut out, 7)?;
    put_count(&mut out, 9)?;
    put_long(&mut out, 0x0102_0304_0506_0708)?;
    put_mark(&mut out, b"DS")?;
    put_bytes(&mut out, b"xyz")?;
    put_text(&mut out, "/a")?;
    put_leb(&mut out, 300)?;
    Ok(out)
}

#[test]
fn fields_of_each_kind_are_read_in_their_order(rt: HostRuntime) -> Result<(), Fail> {
    let bytes = fields(rt.alloc())?;
    let mut reader = Reader::new(&bytes);
    let numbers = (reader.kind(), reader.count(), reader.long());
    assert_eq!(rt; numbers, (Ok(7), Ok(9), Ok(0x0102_0304_0506_0708)));
    assert_eq!(rt; reader.mark(b"DS"), Ok(()));
    assert_eq!(rt;
        (reader.bytes(), reader.text()),
        (Ok(&b"xyz"[..]), Ok("/a"))
    );
    assert_eq!(rt; (reader.leb(), reader.left()), (Ok(300), 0));
    Ok(())
}
