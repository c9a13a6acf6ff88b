use super::*;
use std::test::Fail;

#[test]
fn chains_keep_their_items_up_to_the_limit(rt: HostRuntime) -> Result<(), Fail> {
    let mut pool = Pool::new(rt.alloc(), 3);
    let odd = pool.new_chain().map_err(|_| "no chain")?;
    let even = pool.new_chain().map_err(|_| "no chain")?;
    pool.push(odd, 1).map_err(|_| "no node")?;
    pool.push(even, 2).map_err(|_| "no node")?;
    pool.push(odd, 3).map_err(|_| "no node")?;
    assert_eq!(rt; pool.push(even, 4), Err(PoolRefusal::Full { nodes: 3 }));
    let mut items = Vec::new(rt.alloc());
    pool.walk(odd, &mut items)?;
    pool.walk(even, &mut items)?;
    assert_eq!(rt; items.as_slice(), [1, 3, 2].as_slice());
    Ok(())
}

#[test]
fn chains_are_as_many_as_the_limit(rt: HostRuntime) -> Result<(), Fail> {
    let mut pool = Pool::new(rt.alloc(), 3);
    for _ in 0..3 {
        pool.new_chain().map_err(|_| "no chain")?;
    }
    let refused = pool.new_chain().err();
    assert_eq!(rt; refused, Some(PoolRefusal::Full { nodes: 3 }));
    Ok(())
}
