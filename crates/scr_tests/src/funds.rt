//! Edges that are taken off are put back.

use scr_funds::FundOrder;
use std::test::Fail;

#[test]
fn edges_are_put_back(rt: HostRuntime) -> Result<(), Fail> {
    let alloc = rt.alloc();
    let mut order = FundOrder::new(alloc)?;
    assert!(rt; order.add_edges(alloc, 2, &[7, 1]).is_ok());
    let kept = order.remove(2);
    assert!(rt; order.path(alloc, 2, 1)?.is_none());
    order.put_back(kept);
    let path = order.path(alloc, 2, 1)?.expect(&rt, "a chain");
    assert_eq!(rt; path.as_slice(), [2, 1].as_slice());
    Ok(())
}
