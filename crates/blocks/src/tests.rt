//! What the allocators do on small examples.

use super::*;

#[test]
fn lowest_gap_first(rt: HostRuntime) {
    let mut fit = FirstFit::open(16);
    assert_eq!(rt; fit.allocate(4), Ok(0));
    assert_eq!(rt; fit.allocate(4), Ok(4));
    assert_eq!(rt; fit.allocate(8), Ok(8));
    assert_eq!(rt; fit.allocate(1), Err(Decline::Unfit));
    assert_eq!(rt; fit.deallocate(4, 4), Ok(()));
    assert_eq!(rt; fit.deallocate(4, 4), Err(Decline::NotOut));
    assert_eq!(rt; fit.allocate(3), Ok(4));
    assert_eq!(rt; fit.allocate(2), Err(Decline::Unfit));
    assert_eq!(rt; fit.used(), 15);
}

#[test]
fn every_line_taken(rt: HostRuntime) {
    let mut fit = FirstFit::open(2000);
    assert_eq!(rt; fit.extent(), 1024);
    for at in 0..512 {
        assert_eq!(rt; fit.allocate(1), Ok(at));
    }
    assert_eq!(rt; fit.allocate(1), Err(Decline::Unfit));
    assert_eq!(rt; fit.deallocate(300, 1), Ok(()));
    assert_eq!(rt; fit.allocate(1), Ok(300));
}

#[test]
fn slots_of_a_pool(rt: HostRuntime) {
    let mut pool = Pool::open(10, 4);
    assert_eq!(rt; pool.allocate(5), Err(Decline::Unfit));
    assert_eq!(rt; pool.allocate(3), Ok(0));
    assert_eq!(rt; pool.allocate(4), Ok(4));
    assert_eq!(rt; pool.allocate(1), Err(Decline::Unfit));
    assert_eq!(rt; pool.deallocate(0, 4), Err(Decline::NotOut));
    assert_eq!(rt; pool.deallocate(1, 3), Err(Decline::NotOut));
    assert_eq!(rt; pool.deallocate(0, 3), Ok(()));
    assert_eq!(rt; pool.used(), 4);
    assert_eq!(rt; pool.allocate(1), Ok(0));
}

#[test]
fn quota_over_quota(rt: HostRuntime) {
    let inner = Quota::open(FirstFit::open(100), 20);
    let mut outer = Quota::open(inner, 12);
    assert_eq!(rt; outer.allocate(8), Ok(0));
    assert_eq!(rt; outer.allocate(5), Err(Decline::Unfit));
    assert_eq!(rt; outer.allocate(4), Ok(8));
    assert_eq!(rt; outer.used(), 12);
    let mut inner = outer.close();
    assert_eq!(rt; inner.allocate(9), Err(Decline::Unfit));
    assert_eq!(rt; inner.allocate(8), Ok(12));
    assert_eq!(rt; inner.deallocate(0, 8), Ok(()));
    assert_eq!(rt; inner.used(), 12);
}
