use post_lists::{ListRefusal, TermList, and, minus, or};
use std::alloc::{AllocError, Global};
use std::test::Fail;

fn items(alloc: Global, list: &TermList) -> Result<Vec<u32>, AllocError> {
    let mut items = Vec::new(alloc);
    let mut cursor = list.cursor();
    for _ in 0..list.len() {
        if let Some(item) = cursor.next() {
            items.push(item)?;
        }
    }
    Ok(items)
}

/// The numbers 0, 1, .. below `end`, read from the bytes of their postings.
fn all_below(alloc: Global, end: u32) -> Result<TermList, Fail> {
    let mut bytes = Vec::new(alloc);
    for i in 0..end {
        bytes.push(if i == 0 { 0 } else { 1 })?;
    }
    let list = TermList::read(alloc, bytes.as_slice(), end, end);
    Ok(list.ok().ok_or("refused")?)
}

#[test]
fn bytes_of_a_list(rt: HostRuntime) -> Result<(), Fail> {
    let list = TermList::of(rt.alloc(), [0, 1, 129, 300].as_slice())?;
    assert!(rt; list.len() == 4 && list.bytes() == [0, 1, 0x80, 1, 0xab, 1].as_slice());
    Ok(())
}

/// Where the bytes are invalid for 4 postings below 301; 100 if they aren't.
fn place(alloc: Global, bytes: &[u8]) -> u64 {
    match TermList::read(alloc, bytes, 4, 301) {
        Err(ListRefusal::Bad { place }) => place,
        _ => 100,
    }
}

#[test]
fn places_of_damage(rt: HostRuntime) -> Result<(), Fail> {
    let rows: [(&[u8], u64); 8] = [
        (&[0, 1, 0x80, 1, 0xab, 1], 100),
        (&[0, 1, 0x80, 1, 0xac, 1], 4),
        (&[0, 1, 0x80, 1, 0xab], 4),
        (&[0, 1, 0x80, 1], 4),
        (&[0, 1, 0x80, 1, 0xab, 1, 7], 6),
        (&[0, 1, 0x80, 0, 0xab, 1], 2),
        (&[0, 0, 0x80, 1, 0xab, 1], 1),
        (&[0xff, 0xff, 0xff, 0xff, 0xff, 1], 0),
    ];
    for (bytes, wanted) in rows.iter() {
        assert!(rt; place(rt.alloc(), bytes) == *wanted, "{wanted}");
    }
    Ok(())
}

#[test]
fn seeks_over_skips(rt: HostRuntime) -> Result<(), Fail> {
    let list = all_below(rt.alloc(), 1000)?;
    let mut cursor = list.cursor();
    assert!(rt; cursor.next() == Some(0) && cursor.seek(0) == Some(1));
    assert!(rt; cursor.seek(127) == Some(127) && cursor.seek(128) == Some(128));
    assert!(rt; cursor.seek(900) == Some(900) && cursor.seek(5) == Some(901));
    assert!(rt; cursor.seek(1000).is_none() && cursor.next().is_none());
    Ok(())
}

#[test]
fn lists_as_sets(rt: HostRuntime) -> Result<(), Fail> {
    let few = TermList::of(rt.alloc(), [3, 200, 555, 1200].as_slice())?;
    let many = all_below(rt.alloc(), 500)?;
    let both = and(rt.alloc(), &few, &many)?;
    let others = minus(rt.alloc(), &few, &many)?;
    let rest = minus(rt.alloc(), &many, &few)?;
    let all = or(rt.alloc(), &few, &many)?;
    assert!(rt; items(rt.alloc(), &both)?.as_slice() == [3, 200].as_slice());
    assert!(rt; items(rt.alloc(), &others)?.as_slice() == [555, 1200].as_slice());
    assert!(rt; rest.len() == 498 && all.len() == 502);
    Ok(())
}
