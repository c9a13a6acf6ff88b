ghost use Rattle.std.specs.Prelude.{◌^◌, ◌<◌, IfOk, length};
ghost use Rattle.range_index.specs.Rows.{IsRising};

use super::*;
use std::alloc::{AllocError, Global};
use std::test::Fail;

/// Three rows with two values, in order.
fn rows(alloc: Global) -> Result<Vec<(Text, u32)>, AllocError>
    ensures rising { IfOk result (λ rows. IsRising rows.items) }
    ensures few { IfOk result (λ rows. length rows.items < 2 ^ 32) }
{
    let first = Text::from_slice(alloc, b"a")?;
    let second = first.copy(alloc)?;
    let last = Text::from_slice(alloc, b"b")?;
    let mut rows = Vec::new(alloc);
    rows.push((first, 2))?;
    rows.push((second, 5))?;
    rows.push((last, 2))?;
    Ok(rows)
}

#[test]
fn each_operator_finds_its_fragments(rt: HostRuntime) -> Result<(), Fail> {
    let index = RangeIndex::of(rt.alloc(), rows(rt.alloc())?)?;
    assert_eq!(rt; index.len(), 3);
    for (op, wanted) in [
        (Compare::Lt, [2, 5].as_slice()),
        (Compare::Le, [2, 5].as_slice()),
        (Compare::Gt, [].as_slice()),
        (Compare::Ge, [2].as_slice()),
        (Compare::Eq, [2].as_slice()),
        (Compare::Ne, [2, 5].as_slice()),
    ] {
        let found = index.matching(rt.alloc(), op, b"b")?;
        assert_eq!(rt; found.as_slice(), wanted, "{op:?}");
    }
    Ok(())
}
