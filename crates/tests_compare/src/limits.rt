//! Both sides of each cause for which there are no powers.
use crate::forms::powers_text;
use std::test::Fail;

// A denominator, the numbers of the tuples that pick 0, 1, 2, 3 and 4 elements of one list, and the
// text of the powers.
const LIMITS: [(i128, &[i128], &str); 12] = [
    // 24 times the denominator is 2^127 - 8, and 2^127 + 16
    (
        7089215977519551322153637654828504405,
        &[1],
        "1/7089215977519551322153637654828504405",
    ),
    (7089215977519551322153637654828504406, &[1], "leaves"),
    (7089215977519551322153637654828504405, &[], "0"),
    (7089215977519551322153637654828504406, &[], "leaves"),
    // 24 times a constant is 2^127 - 8, and 2^127 + 16
    (
        1,
        &[7089215977519551322153637654828504405],
        "7089215977519551322153637654828504405",
    ),
    (1, &[7089215977519551322153637654828504406], "leaves"),
    // 12 a + 11 b is 2^127 - 1, and 2^127: what is above 0 at n1^2
    (
        1,
        &[0, 0, 14178431955039102644307275309657008806, 0, 5],
        "-28356863910078205288614550619314017617/4*n1 + 170141183460469231731687303715884105727/24*n1^2 - 5/4*n1^3 + 5/24*n1^4",
    ),
    (
        1,
        &[0, 0, 14178431955039102644307275309657008807, 0, 4],
        "leaves",
    ),
    // 12 a is 2^127 - 8, and 2^127 + 4: what is below 0 at n1^2
    (
        1,
        &[0, 0, 0, 14178431955039102644307275309657008810],
        "14178431955039102644307275309657008810/3*n1 - 7089215977519551322153637654828504405*n1^2 + 7089215977519551322153637654828504405/3*n1^3",
    ),
    (
        1,
        &[0, 0, 0, 14178431955039102644307275309657008811],
        "leaves",
    ),
    // a total leaves, and the difference does not
    (
        1,
        &[
            0,
            7089215977519551322153637654828504406,
            14178431955039102644307275309657008810,
        ],
        "leaves",
    ),
    // a product leaves
    (1, &[170141183460469231731687303715884105727], "leaves"),
];

#[test]
fn totals_of_each_sign_and_denominators_fit(rt: HostRuntime) -> Result<(), Fail> {
    for (den, numbers, want) in &LIMITS {
        assert!(rt; *den > 0);
        let text = powers_text(rt.alloc(), "int list", 4, *den, numbers)?;
        assert_eq!(rt; text.as_str(), *want);
    }
    Ok(())
}
