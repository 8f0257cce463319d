//! Exponents, and their order.
use bound_compare::Exponents;
use std::alloc::{AllocError, Global};
use std::cmp::Ordering;
use std::test::Fail;

#[test]
fn exponents_are_copied(rt: HostRuntime) -> Result<(), Fail> {
    let some = Exponents::new(vec![in rt.alloc(); 1, 0]?);
    assert_eq!(rt; some.copy(rt.alloc())?.each(), [1, 0].as_slice());
    assert_eq!(rt;
        some.with_first(rt.alloc(), 2)?.each(),
        [2, 1, 0].as_slice()
    );
    Ok(())
}

// Exponents in their order.
const ORDER: [&[u8]; 7] = [
    &[0, 0],
    &[0, 1],
    &[1, 0],
    &[0, 2],
    &[1, 1],
    &[2, 0],
    &[0, 3],
];

fn made(alloc: Global, each: &[u8]) -> Result<Exponents, AllocError> {
    Ok(Exponents::new(Vec::from_slice(alloc, each)?))
}

#[test]
fn exponents_are_ordered_by_their_sum(rt: HostRuntime) -> Result<(), Fail> {
    for pair in ORDER.windows(2) {
        let [low, high] = pair else {
            continue;
        };
        let low = made(rt.alloc(), low)?;
        let high = made(rt.alloc(), high)?;
        assert_eq!(rt; low.cmp(&high), Ordering::Less);
        assert_eq!(rt; high.cmp(&low), Ordering::Greater);
        assert_eq!(rt; low.cmp(&low), Ordering::Equal);
    }
    Ok(())
}
