// Divisors, multiples, sums and orders near the edges of 128 bits.
use raml_num::{cross_cmp, gcd, lcm, sum};
use std::cmp::Ordering;

const LAST: u128 = u128::MAX;

const HALF: u128 = 1 << 127;

#[test]
fn common_divisors(rt: HostRuntime) {
    let table: [(u128, u128, u128); 9] = [
        (0, 0, 0),
        (12, 0, 12),
        (0, 12, 12),
        (12, 18, 6),
        (17, 5, 1),
        (LAST, LAST, LAST),
        (LAST, 1, 1),
        // 2^128 - 1 is 3 * 5 * 17 * 257 * 641 * 65537 * 274177 * 6700417 * 67280421310721
        (LAST, 274_177 * 641 * 2, 274_177 * 641),
        (HALF, 1 << 70, 1 << 70),
    ];
    for (a, b, want) in table {
        assert_eq!(rt; gcd(a, b), want, "of {a} and {b}");
    }
}

#[test]
fn common_multiples(rt: HostRuntime) {
    let table: [(u128, u128, Option<u128>); 7] = [
        (1, 1, Some(1)),
        (4, 6, Some(12)),
        (LAST, LAST, Some(LAST)),
        (LAST, LAST / 3, Some(LAST)),
        (LAST, 2, None),
        (HALF, 1 << 126, Some(HALF)),
        (HALF, 3, None),
    ];
    for (a, b, want) in table {
        if a > 0 && b > 0 {
            assert_eq!(rt; lcm(a, b), want, "of {a} and {b}");
        }
    }
}

#[test]
fn sums(rt: HostRuntime) {
    assert_eq!(rt; sum(&[]), Some(0));
    assert_eq!(rt; sum(&[1, 0, 41]), Some(42));
    assert_eq!(rt; sum(&[i128::MAX, 0]), Some(i128::MAX));
    assert_eq!(rt; sum(&[i128::MAX - 2, 1, 1]), Some(i128::MAX));
    assert_eq!(rt; sum(&[i128::MAX, 1]), None);
    assert_eq!(rt; sum(&[1, i128::MAX]), None);
}

#[test]
fn orders(rt: HostRuntime) {
    let table: [(u128, u128, u128, u128, Ordering); 8] = [
        (0, 1, 0, LAST, Ordering::Equal),
        (1, 2, 2, 4, Ordering::Equal),
        (1, 2, 1, 3, Ordering::Greater),
        (HALF - 1, HALF - 2, HALF - 2, HALF - 3, Ordering::Less),
        (LAST, LAST - 1, LAST - 1, LAST - 2, Ordering::Less),
        (LAST, 1, LAST - 1, 1, Ordering::Greater),
        (LAST, LAST, 1, 1, Ordering::Equal),
        (1, LAST, 1, LAST - 1, Ordering::Less),
    ];
    for (a, b, c, d, want) in table {
        if b > 0 && d > 0 {
            assert_eq!(rt; cross_cmp(a, b, c, d), want, "of {a}/{b} and {c}/{d}");
        }
    }
}
