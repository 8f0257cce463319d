// The text of a polynomial.
ghost use Rattle.std.specs.Prelude.{◌≡◌, ◌++◌, ◌==◌, ◌<◌, ◌^◌, ◌≢◌, not, filter, All, codes, decimal, string_bytes, IfOk, OnOk};
ghost use Rattle.base_poly.specs.Plain.{many, degrees};
ghost use Rattle.base_poly.specs.Read.{index_of, plains_of};
ghost use Rattle.base_poly.specs.Poly.{den_of, magnitudes, terms_of, IsPoly};
ghost use Rattle.poly_text.specs.Text.{index_text, entries_text, coefficient_text, term_text, more_terms, sum_text, IsTextOf};

use base_poly::{Index, Poly, Tuple};
use itoa::Buffer;
use raml_num::gcd;
use std::alloc::{AllocError, Global};

/// The polynomial as a sum of its terms, such as `1/2*<[_], []> + 3`: those that are not zero, in the
/// order of their tuples, with coefficients in lowest terms.
pub fn print(alloc: Global, poly: &Poly) -> Result<String, AllocError>
    requires { IsPoly poly.now }
    ensures { IfOk result (λ text. IsTextOf (den_of poly.now) (terms_of poly.now) (string_bytes text)) }
{
    let mut terms = nonzero_terms(alloc, &poly.terms)?;
    terms.sort()?;
    sum(alloc, &terms, poly.den.unsigned_abs())
}

// The terms that are not zero.
fn nonzero_terms(alloc: Global, terms: &[(Tuple, i128)]) -> Result<Vec<(Tuple, u128)>, AllocError>
    ensures { IfOk result (λ found. found.items ≡ filter (λ t. not (t.1 == 0)) (magnitudes terms.now)) }
{
    let mut found = Vec::new(alloc);
    for (tuple, number) in terms {
        let number = number.unsigned_abs();
        if number != 0 {
            found.push((tuple.copy(alloc)?, number))?;
        }
    }
    Ok(found)
}

// The terms one after the other, or a zero.
fn sum(alloc: Global, terms: &[(Tuple, u128)], den: u128) -> Result<String, AllocError>
    requires den { den ≢ 0 }
    requires low { All (λ t. degrees t.0 < 2 ^ 32) terms.now }
    ensures { IfOk result (λ text. string_bytes text ≡ sum_text den terms.now) }
{
    let mut out = String::new(alloc);
    match terms {
        [] => out.push_str("0")?,
        [(tuple, number), rest @ ..] => {
            write_term(&mut out, tuple, *number, den)?;
            write_more(&mut out, rest, den)?;
        }
    }
    Ok(out)
}

// Appends a plus and the term, for each.
fn write_more(out: &mut String, terms: &[(Tuple, u128)], den: u128) -> Result<(), AllocError>
    requires den { den ≢ 0 }
    requires low { All (λ t. degrees t.0 < 2 ^ 32) terms.now }
    ensures { OnOk result (string_bytes out.new ≡ string_bytes out.old ++ more_terms den terms.now) }
{
    for (tuple, number) in terms {
        out.push_str(" + ")?;
        write_term(out, tuple, *number, den)?;
    }
    Ok(())
}

// Appends the coefficient, and the tuple where its degree is not 0.
fn write_term(out: &mut String, tuple: &Tuple, number: u128, den: u128) -> Result<(), AllocError>
    requires den { den ≢ 0 }
    requires low { degrees tuple.now < 2 ^ 32 }
    ensures { OnOk result (string_bytes out.new ≡ string_bytes out.old ++ term_text den (tuple.now, number)) }
{
    write_coefficient(out, number, den)?;
    if tuple.degree() != 0 {
        write_tuple(out, tuple.parts())?;
    }
    Ok(())
}

// Appends the quotient in lowest terms.
fn write_coefficient(out: &mut String, number: u128, den: u128) -> Result<(), AllocError>
    requires { den ≢ 0 }
    ensures { OnOk result (string_bytes out.new ≡ string_bytes out.old ++ coefficient_text number den) }
{
    let common = gcd(number, den);
    let below = den / common;
    write_number(out, number / common)?;
    if below != 1 {
        out.push_str("/")?;
        write_number(out, below)?;
    }
    Ok(())
}

fn write_number(out: &mut String, number: u128) -> Result<(), AllocError>
    ensures { OnOk result (string_bytes out.new ≡ string_bytes out.old ++ decimal number) }
{
    let mut buffer = Buffer::new();
    out.push_str(buffer.format(number))
}

fn write_tuple(out: &mut String, parts: &[Index]) -> Result<(), AllocError>
    ensures { OnOk result (string_bytes out.new ≡ string_bytes out.old ++ (codes "*<" ++ (entries_text (many (plains_of parts.now)) ++ codes ">"))) }
{
    out.push_str("*<")?;
    write_entries(out, parts)?;
    out.push_str(">")
}

#[cycle(index)]
fn write_index(out: &mut String, index: &Index) -> Result<(), AllocError>
    ensures { OnOk result (string_bytes out.new ≡ string_bytes out.old ++ index_text (index_of index.now)) }
{
    match index {
        Index::Unit => out.push_str("_"),
        Index::Pair(first, second) => {
            out.push_str("(")?;
            write_index(out, first)?;
            out.push_str(", ")?;
            write_index(out, second)?;
            out.push_str(")")
        }
        Index::List(entries) => write_list(out, entries),
        Index::Opt(None) => out.push_str("[]"),
        Index::Opt(Some(entry)) => {
            out.push_str("[")?;
            write_index(out, entry)?;
            out.push_str("]")
        }
    }
}

#[cycle(index)]
fn write_list(out: &mut String, entries: &[Index]) -> Result<(), AllocError>
    ensures { OnOk result (string_bytes out.new ≡ string_bytes out.old ++ index_text (many (plains_of entries.now))) }
{
    out.push_str("[")?;
    write_entries(out, entries)?;
    out.push_str("]")
}

#[cycle(index)]
fn write_entries(out: &mut String, entries: &[Index]) -> Result<(), AllocError>
    ensures { OnOk result (string_bytes out.new ≡ string_bytes out.old ++ entries_text (many (plains_of entries.now))) }
{
    let mut first = true;
    for entry in entries {
        if !first {
            out.push_str(", ")?;
        }
        first = false;
        write_index(out, entry)?;
    }
    Ok(())
}
