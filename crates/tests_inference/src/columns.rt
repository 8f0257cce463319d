//! The columns that enter by the rules of the product.
use frac128::Frac;
use simplex_checked::{greatest_column, least_column};
use std::alloc::Global;
use std::test::Fail;

/// The fraction of a text as `-2/7`.
fn fraction(text: &str) -> Option<Frac> {
    let (num, den) = text.split_once('/')?;
    let num = Frac::whole(num.parse::<i128>().ok()?)?;
    let den = Frac::whole(den.parse::<i128>().ok()?)?;
    if den.num() == 0 { None } else { num.div(&den) }
}

/// The columns that enter for these gains, by the rule of the least column and by that of the greatest
/// gain.
fn entering(alloc: Global, text: &str) -> Result<(Option<usize>, Option<usize>), Fail> {
    let mut gains = Vec::new(alloc);
    for word in text.split_whitespace() {
        gains.push(fraction(word).ok_or("no fraction")?)?;
    }
    Ok((least_column(&gains), greatest_column(&gains)))
}

/// Gains, and the columns: of none, of none that is positive, of equal ones, of a greater one that comes
/// later, of equal fractions, and of fractions that differ by less than any whole number tells.
const GAINS: [(&str, Option<usize>, Option<usize>); 7] = [
    ("", None, None),
    ("0/1 -3/2 -1/9 0/1", None, None),
    ("-1/1 4/1 4/1 4/1", Some(1), Some(1)),
    ("0/1 1/3 -7/1 1/2 1/9", Some(1), Some(3)),
    ("1/4 2/6 1/3 3/9 0/1", Some(0), Some(1)),
    (
        "-5/1 0/1 -1/1 1/170141183460469231731687303715884105727",
        Some(3),
        Some(3),
    ),
    (
        "170141183460469231731687303715884105725/170141183460469231731687303715884105727 \
         170141183460469231731687303715884105726/170141183460469231731687303715884105727",
        Some(0),
        Some(1),
    ),
];

#[test]
fn columns_enter(rt: HostRuntime) -> Result<(), Fail> {
    for (text, least, greatest) in &GAINS {
        let (first, second) = entering(rt.alloc(), text)?;
        assert!(rt; first == *least, "the least of {text}");
        assert!(rt; second == *greatest, "the greatest of {text}");
    }
    Ok(())
}
