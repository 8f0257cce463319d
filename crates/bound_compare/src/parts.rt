// What the terms of a polynomial bring at exponents.
ghost use Rattle.std.specs.Prelude.{◌≡◌, ◌≤◌, ◌<◌, ◌*◌, ◌*ℤ◌, ◌/◌, ◌++◌, ℕ, List, All, [], flat_map, map, unsigned_abs, IfOk, OnOk};
ghost use Rattle.base_poly.specs.Plain.{many, deg, degrees, entry_count};
ghost use Rattle.base_poly.specs.Poly.{magnitudes};
ghost use Rattle.base_poly.specs.Read.{index_of, plains_of};
ghost use Rattle.bound_compare.specs.Powers.{counts, factorial, factorials, above, below};
ghost use Rattle.bound_compare.specs.Steps.{factors, led, expansion, capped, scaled, parts_of, IsFew};

use crate::exponents::Exponents;
use base_poly::{Index, Tuple};
use std::alloc::{AllocError, Global};

/// Exponents with the total of what is above 0 there, and of what is below. A total that is greater than
/// 2^128 - 1 counts as that.
pub type Part = (Exponents, (u128, u128));

/// What all the terms bring, times 24.
pub fn parts(alloc: Global, terms: &[(Tuple, i128)]) -> Result<Vec<Part>, AllocError>
    requires { All (λ t. degrees t.0 ≤ 4) terms.now }
    ensures { IfOk result (λ parts. parts.items ≡ flat_map parts_of (magnitudes terms.now)) }
{
    let mut parts = Vec::new(alloc);
    for (tuple, number) in terms {
        append_term(alloc, &mut parts, tuple, number.unsigned_abs())?;
    }
    Ok(parts)
}

// Appends what the term brings.
fn append_term(
    alloc: Global,
    parts: &mut Vec<Part>,
    tuple: &Tuple,
    number: u128,
) -> Result<(), AllocError>
    requires { degrees tuple.now ≤ 4 }
    ensures { OnOk result (parts.new.items ≡ parts.old.items ++ parts_of (tuple.now, number)) }
{
    let indices = tuple.parts();
    let powers = expansion(alloc, indices)?;
    append_scaled(parts, powers, number, scale(indices))
}

// Appends each of the powers times both numbers.
fn append_scaled(
    parts: &mut Vec<Part>,
    powers: Vec<(Exponents, i128)>,
    number: u128,
    scale: u128,
) -> Result<(), AllocError>
    requires scale { scale ≤ 24 }
    requires few { All IsFew powers.items }
    ensures { OnOk result (parts.new.items ≡ parts.old.items ++ scaled number scale powers.items) }
{
    for (exponents, factor) in powers {
        parts.push((exponents, totals(number, scale, factor)))?;
    }
    Ok(())
}

// What the product is above 0, and below.
fn totals(number: u128, scale: u128, factor: i128) -> (u128, u128)
    requires scale { scale ≤ 24 }
    requires few { unsigned_abs factor ≤ 24 }
    ensures { result ≡ (capped (number * (scale * above factor)), capped (number * (scale * below factor))) }
{
    let size = number.saturating_mul(scale * factor.unsigned_abs());
    if factor < 0 { (0, size) } else { (size, 0) }
}

// What is left of 24 when it is divided by the factorials of the indices' numbers of entries.
fn scale(indices: &[Index]) -> u128
    requires { degrees (plains_of indices.now) ≤ 4 }
    ensures scale { result ≡ 24 / factorials (counts (plains_of indices.now)) }
    ensures few { result ≤ 24 }
{
    let mut scale = 24;
    for index in indices {
        scale /= factorial(entry_count(index));
    }
    scale
}

// The product of the numbers up to this one.
fn factorial(count: usize) -> u128
    requires { count ≤ 4 }
    ensures product { result ≡ factorial count }
    ensures positive { 0 < result }
{
    match count {
        0 | 1 => 1,
        2 => 2,
        3 => 6,
        _ => 24,
    }
}

// How many entries a list index has.
fn entry_count(index: &Index) -> usize
    ensures count { result ≡ entry_count (index_of index.now) }
    ensures low { result ≤ deg (index_of index.now) }
{
    match index {
        Index::List(entries) => number_of(entries),
        Index::Unit | Index::Pair(..) | Index::Opt(_) => 0,
    }
}

// How many these are.
fn number_of(entries: &[Index]) -> usize
    ensures count { result ≡ entry_count (many (plains_of entries.now)) }
    ensures low { result ≤ deg (many (plains_of entries.now)) }
{
    entries.len()
}

// The powers in the product of the falling products of the indices' numbers of entries.
fn expansion(alloc: Global, indices: &[Index]) -> Result<Vec<(Exponents, i128)>, AllocError>
    requires { degrees (plains_of indices.now) ≤ 4 }
    ensures powers { IfOk result (λ powers. powers.items ≡ expansion (counts (plains_of indices.now))) }
    ensures few { IfOk result (λ powers. All IsFew powers.items) }
{
    match indices {
        [] => Ok(Vec::from_array(alloc, [(Exponents::new(Vec::new(alloc)), 1)])?),
        [index, rest @ ..] => {
            let powers = expansion(alloc, rest)?;
            led_by_each(alloc, factors(entry_count(index)), &powers)
        }
    }
}

// The powers with each of these before them.
fn led_by_each(
    alloc: Global,
    firsts: &[(u8, i128)],
    powers: &[(Exponents, i128)],
) -> Result<Vec<(Exponents, i128)>, AllocError>
    requires firsts { All (λ f. unsigned_abs f.1 ≤ 24) firsts.now }
    requires few { All IsFew powers.now }
    ensures { IfOk result (λ found. found.items ≡ flat_map (led powers.now) firsts.now) }
{
    let mut found = Vec::new(alloc);
    for (exponent, factor) in firsts {
        append_led(alloc, &mut found, *exponent, *factor, powers)?;
    }
    Ok(found)
}

// Appends the powers with this one before them.
fn append_led(
    alloc: Global,
    found: &mut Vec<(Exponents, i128)>,
    exponent: u8,
    factor: i128,
    powers: &[(Exponents, i128)],
) -> Result<(), AllocError>
    requires factor { unsigned_abs factor ≤ 24 }
    requires few { All IsFew powers.now }
    ensures { OnOk result (found.new.items ≡ found.old.items ++ led powers.now (exponent, factor)) }
{
    for (exponents, number) in powers {
        found.push((
            exponents.with_first(alloc, exponent)?,
            product(factor, *number),
        ))?;
    }
    Ok(())
}

// The product of small numbers.
fn product(a: i128, b: i128) -> i128
    requires a { unsigned_abs a ≤ 24 }
    requires b { unsigned_abs b ≤ 24 }
    ensures { result ≡ a *ℤ b }
{
    a * b
}

// The powers of n in n * (n - 1) * .. of so many factors, each with its coefficient.
fn factors(count: usize) -> &'static [(u8, i128)]
    requires { count ≤ 4 }
    ensures factors { result.now ≡ factors count }
    ensures few { All (λ f. unsigned_abs f.1 ≤ 24) result.now }
{
    match count {
        0 => &[(0, 1)],
        1 => &[(1, 1)],
        2 => &[(1, -1), (2, 1)],
        3 => &[(1, 2), (2, -3), (3, 1)],
        _ => &[(1, -6), (2, 11), (3, -6), (4, 1)],
    }
}
