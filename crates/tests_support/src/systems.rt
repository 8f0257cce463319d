//! Linear systems as text.
//!
//! `system UNKNOWNS ROWS` is followed by a line `weights I:W ..` and by a line `row RIGHT I:N ..` for each
//! row, without the numbers that are 0.
ghost use Rattle.std.specs.Prelude.{◌≡◌, ◌<◌, ◌^◌, ◌≤ℤ◌, pos, IfOk, IsTrue, vec_len};
ghost use Rattle.raml_num.specs.Sums.{NoneNegative};
ghost use Rattle.linear_rows.specs.Systems.{IsBelow};
ghost use Rattle.simplex_spec.specs.Tableaux.{right};

use linear_rows::{Row, System};
use std::alloc::Global;
use std::str::{Lines, SplitWhitespace};
use std::test::Fail;

/// What comes after the first word of the next line.
fn after<'a>(lines: &mut Lines<'a>, first: &str) -> Result<SplitWhitespace<'a>, Fail> {
    let mut words = lines.next().ok_or("a line is missing")?.split_whitespace();
    if words.next() == Some(first) {
        Ok(words)
    } else {
        Err(Fail::new("another line was expected"))
    }
}

/// The number that is the next word.
fn number(words: &mut SplitWhitespace<'_>) -> Option<u32> {
    words.next()?.parse::<u32>().ok()
}

/// The right side that is the next word.
fn right_side(words: &mut SplitWhitespace<'_>) -> Option<i128> {
    words.next()?.parse::<i128>().ok()
}

/// A term, as `I:N`.
fn term(word: &str) -> Option<(u32, i128)> {
    let (unknown, number) = word.split_once(':')?;
    Some((unknown.parse::<u32>().ok()?, number.parse::<i128>().ok()?))
}

/// The weight of an unknown among these.
fn weight(words: SplitWhitespace<'_>, unknown: u32) -> Result<i128, Fail>
    ensures { IfOk result (λ w. pos 0 ≤ℤ w) }
{
    for word in words {
        let (other, number) = term(word).ok_or("no weight")?;
        if number < 0 {
            return Err(Fail::new("a negative weight"));
        }
        if other == unknown {
            return Ok(number);
        }
    }
    Ok(0)
}

/// The weights of this many unknowns.
fn weights(alloc: Global, unknowns: u32, line: &str) -> Result<Vec<i128>, Fail>
    ensures one_each { IfOk result (λ ws. vec_len ws ≡ unknowns) }
    ensures natural { IfOk result (λ ws. NoneNegative ws.items) }
{
    let mut all = Vec::new(alloc);
    for unknown in 0..unknowns {
        let mut words = line.split_whitespace();
        words.next();
        all.push(weight(words, unknown)?)?;
    }
    Ok(all)
}

/// A row over this many unknowns.
fn row(alloc: Global, unknowns: u32, words: SplitWhitespace<'_>) -> Result<Row, Fail>
    ensures { IfOk result (IsBelow unknowns) }
{
    let mut words = words;
    let mut row = Row::new(alloc);
    row.add_right(right_side(&mut words).ok_or("no right side")?)?;
    for word in words {
        let (unknown, times) = term(word).ok_or("no term")?;
        if unknown >= unknowns {
            return Err(Fail::new("no such unknown"));
        }
        row.add(unknown, times)?;
    }
    Ok(row)
}

/// Whether 32 bits can number the columns of the system's tableau.
fn fits(system: &System) -> bool
    ensures { IsTrue result → right system.now < 2 ^ 32 }
{
    system.rows().len() <= (u32::MAX - system.unknowns()) as usize
}

/// The system that the next lines spell.
pub fn system(alloc: Global, lines: &mut Lines<'_>) -> Result<System, Fail>
    ensures { IfOk result (λ s. right s < 2 ^ 32) }
{
    let mut head = after(lines, "system")?;
    let unknowns = number(&mut head).ok_or("no unknowns")?;
    let rows = number(&mut head).ok_or("no rows")?;
    let weights = weights(alloc, unknowns, lines.next().ok_or("no weights")?)?;
    let mut system = System::new(unknowns, Vec::new(alloc), weights);
    for _ in 0..rows {
        let words = after(lines, "row")?;
        system.add_row(row(alloc, system.unknowns(), words)?)?;
    }
    if fits(&system) {
        Ok(system)
    } else {
        Err(Fail::new("too many columns"))
    }
}
