// The bytes of bodies that two holders share.
use crate::checks::check;
use body_memory::{BodiesFull, BodyMemory, HeldBodies, SharedBodies};

/// Whether so many bytes are refused, since only so many are free.
fn is_refused(bodies: &mut HeldBodies<'_>, bytes: usize, free: u64) -> bool {
    match bodies.hold(bytes) {
        Err(BodiesFull::Full(found)) => found == free,
        Err(BodiesFull::Contended) | Ok(()) => false,
    }
}

#[test]
fn two_holders_share_one_bound(rt: HostRuntime) {
    let shared = SharedBodies::new(rt.alloc(), 10).expect(&rt, "memory");
    let mut first = HeldBodies::new(rt.alloc(), Some(&shared));
    let mut second = HeldBodies::new(rt.alloc(), Some(&shared));
    check(&rt, first.hold(6).is_ok());
    check(&rt, is_refused(&mut second, 5, 4));
    check(&rt, second.hold(4).is_ok());
    check(&rt, is_refused(&mut second, 1, 0));
    first.release();
    check(&rt, second.hold(6).is_ok());
    drop(second);
    check(&rt, first.hold(10).is_ok());
}

#[test]
fn without_a_bound_nothing_is_refused(rt: HostRuntime) {
    let mut bodies = HeldBodies::new(rt.alloc(), None);
    check(&rt, bodies.hold(usize::MAX).is_ok());
    check(&rt, bodies.hold(usize::MAX).is_ok());
}
