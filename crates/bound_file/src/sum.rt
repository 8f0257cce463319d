// Terms and sums from texts.
ghost use Rattle.std.specs.Prelude.{◌≡◌, option_map, IfOk};
ghost use Rattle.bound_file.specs.Reading.{whole_read, over_read, quotient_read, term_read, last_read, inner_read, each_read, pieces};
ghost use Rattle.bound_file.specs.Reading.{sum_read};
ghost use Rattle.bound_file.specs.Seen.{term_of, terms_of};

use crate::cut::{before_space, behind_space, cut_at};
use crate::number::is_number;
use crate::term::Term;
use crate::tuple::is_tuple;
use std::alloc::{AllocError, Global};

// The term of a coefficient, which is a number or two with a stroke between them.
fn quotient<'a>(coefficient: &'a str, tuple: &'a str) -> Option<Term<'a>>
    ensures { option_map term_of result ≡ quotient_read coefficient.now tuple.now }
{
    match cut_at(coefficient, '/') {
        Some((numerator, denominator)) => over(numerator, denominator, tuple),
        None => whole(coefficient, tuple),
    }
}

fn over<'a>(numerator: &'a str, denominator: &'a str, tuple: &'a str) -> Option<Term<'a>>
    ensures { option_map term_of result ≡ over_read numerator.now denominator.now tuple.now }
{
    if is_number(numerator.as_bytes()) && is_number(denominator.as_bytes()) {
        Some(Term {
            numerator,
            denominator,
            tuple,
        })
    } else {
        None
    }
}

fn whole<'a>(numerator: &'a str, tuple: &'a str) -> Option<Term<'a>>
    ensures { option_map term_of result ≡ whole_read numerator.now tuple.now }
{
    if is_number(numerator.as_bytes()) {
        Some(Term {
            numerator,
            denominator: "",
            tuple,
        })
    } else {
        None
    }
}

// The term that a text spells.
fn term<'a>(alloc: Global, text: &'a str) -> Result<Option<Term<'a>>, AllocError>
    ensures { IfOk result (λ found. option_map term_of found ≡ term_read text.now) }
{
    let Some((coefficient, tuple)) = cut_at(text, '*') else {
        return Ok(quotient(text, ""));
    };
    if is_tuple(alloc, tuple.as_bytes())? {
        Ok(quotient(coefficient, tuple))
    } else {
        Ok(None)
    }
}

// The term that stands behind a space.
fn last_term<'a>(alloc: Global, piece: &'a str) -> Result<Option<Term<'a>>, AllocError>
    ensures { IfOk result (λ found. option_map term_of found ≡ last_read piece.now) }
{
    match behind_space(piece) {
        Some(text) => term(alloc, text),
        None => Ok(None),
    }
}

// The term that stands between two spaces.
fn inner_term<'a>(alloc: Global, piece: &'a str) -> Result<Option<Term<'a>>, AllocError>
    ensures { IfOk result (λ found. option_map term_of found ≡ inner_read piece.now) }
{
    match before_space(piece) {
        Some(text) => last_term(alloc, text),
        None => Ok(None),
    }
}

// The terms of a sum that has some.
fn each_term<'a>(alloc: Global, sum: &'a str) -> Result<Option<Vec<Term<'a>>>, AllocError>
    ensures { IfOk result (λ found. option_map (λ ts. terms_of ts.items) found ≡ each_read (pieces sum.now)) }
{
    let mut terms = Vec::new(alloc);
    let mut rest = sum;
    while let Some((piece, behind)) = cut_at(rest, '+') {
        let Some(term) = inner_term(alloc, piece)? else {
            return Ok(None);
        };
        terms.push(term)?;
        rest = behind;
    }
    let Some(term) = last_term(alloc, rest)? else {
        return Ok(None);
    };
    terms.push(term)?;
    Ok(Some(terms))
}

/// The terms of a sum, which stands behind a space; `0` alone is the sum of none.
pub fn terms<'a>(alloc: Global, sum: &'a str) -> Result<Option<Vec<Term<'a>>>, AllocError>
    ensures { IfOk result (λ found. option_map (λ ts. terms_of ts.items) found ≡ sum_read sum.now) }
{
    if sum == " 0" {
        Ok(Some(Vec::new(alloc)))
    } else {
        each_term(alloc, sum)
    }
}
