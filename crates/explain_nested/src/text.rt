// The text of a reading.
ghost use Rattle.std.specs.Prelude.{◌≡◌, ◌++◌, ◌≢◌, take, codes, decimal, string_bytes, OnOk, slice_index_or, []};
ghost use Rattle.poly_text.specs.Text.{coefficient_text};
ghost use Rattle.explain_nested.specs.Read.{place_of, pieces_of};
ghost use Rattle.explain_nested.specs.Text.{texts, sum_over, place_text, choices_text, in_order, dot, pieces_text, product_text};

use crate::names::{behind, front};
use crate::piece::{Piece, Place};
use itoa::Buffer;
use raml_num::gcd;
use std::alloc::AllocError;

/// Appends the quotient and the pieces, or the pieces alone where it is 1 and there are some. The
/// names are those of all values, and those of them that are next.
pub fn push_product<'a>(
    text: &mut String,
    names: &[&'a str],
    next: &[&'a str],
    number: u128,
    den: u128,
    pieces: &[Piece],
) -> Result<(), AllocError>
    requires { den ≢ 0 }
    ensures { OnOk result (string_bytes text.new ≡ string_bytes text.old
        ++ product_text den (texts names.now) (texts next.now) number (pieces_of pieces.now)) }
{
    if number == den && !pieces.is_empty() {
        push_pieces(text, names, next, false, pieces)
    } else {
        push_coefficient(text, number, den)?;
        push_pieces(text, names, next, true, pieces)
    }
}

// Appends the pieces from left to right, behind a factor or not.
fn push_pieces<'a>(
    text: &mut String,
    names: &[&'a str],
    next: &[&'a str],
    is_behind: bool,
    pieces: &[Piece],
) -> Result<(), AllocError>
    ensures { OnOk result (string_bytes text.new ≡ string_bytes text.old
        ++ pieces_text (texts names.now) (texts next.now) is_behind (pieces_of pieces.now)) }
{
    match pieces {
        [] => text.push_str(if is_behind { "" } else { "1" }),
        [piece, rest @ ..] => {
            push_dot(text, is_behind)?;
            match piece {
                Piece::Choices(place, count) => {
                    push_choices(text, names, place, *count)?;
                    push_pieces(text, names, next, true, rest)
                }
                Piece::Elements(place, count) => {
                    push_sum(text, names, front(next, *count), " in ", place)?;
                    push_pieces(text, names, behind(next, *count), false, rest)
                }
                Piece::Held(place) => {
                    push_sum(text, names, front(next, 1), " held by ", place)?;
                    push_pieces(text, names, behind(next, 1), false, rest)
                }
            }
        }
    }
}

fn push_dot(text: &mut String, is_behind: bool) -> Result<(), AllocError>
    ensures { OnOk result (string_bytes text.new ≡ string_bytes text.old ++ dot is_behind) }
{
    text.push_str(if is_behind { "·" } else { "" })
}

// Appends how many elements there are, or the ways to choose so many of them.
fn push_choices<'a>(
    text: &mut String,
    names: &[&'a str],
    place: &Place,
    count: usize,
) -> Result<(), AllocError>
    ensures { OnOk result (string_bytes text.new ≡ string_bytes text.old
        ++ choices_text (place_text (texts names.now) (place_of place.now)) count) }
{
    if count == 1 {
        text.push_str("|")?;
        push_place(text, names, place)?;
        text.push_str("|")
    } else {
        text.push_str("C(|")?;
        push_place(text, names, place)?;
        text.push_str("|,")?;
        text.push_str(Buffer::new().format(count))?;
        text.push_str(")")
    }
}

// Appends the sign of a sum over elements of these names.
fn push_sum<'a>(
    text: &mut String,
    names: &[&'a str],
    elements: &[&'a str],
    relation: &str,
    place: &Place,
) -> Result<(), AllocError>
    ensures { OnOk result (string_bytes text.new ≡ string_bytes text.old ++ (sum_over ++ (in_order (texts elements.now)
        ++ (relation.now ++ (place_text (texts names.now) (place_of place.now) ++ codes ") "))))) }
{
    text.push_str("Σ(")?;
    push_in_order(text, elements)?;
    text.push_str(relation)?;
    push_place(text, names, place)?;
    text.push_str(") ")
}

// Appends names that stand one before the other.
fn push_in_order<'a>(text: &mut String, names: &[&'a str]) -> Result<(), AllocError>
    ensures { OnOk result (string_bytes text.new ≡ string_bytes text.old ++ in_order (texts names.now)) }
{
    let mut is_first = true;
    for name in names {
        text.push_str(if is_first { "" } else { " before " })?;
        text.push_str(name)?;
        is_first = false;
    }
    Ok(())
}

fn push_place<'a>(text: &mut String, names: &[&'a str], place: &Place) -> Result<(), AllocError>
    ensures { OnOk result (string_bytes text.new ≡ string_bytes text.old ++ place_text (texts names.now) (place_of place.now)) }
{
    match place {
        Place::Named(number) => push_name(text, names, *number),
        Place::First(whole) => {
            push_place(text, names, whole)?;
            text.push_str(".first")
        }
        Place::Second(whole) => {
            push_place(text, names, whole)?;
            text.push_str(".second")
        }
    }
}

// Appends the name of this number.
fn push_name<'a>(text: &mut String, names: &[&'a str], number: usize) -> Result<(), AllocError>
    ensures { OnOk result (string_bytes text.new ≡ string_bytes text.old ++ slice_index_or (texts names.now) number []) }
{
    if number < names.len() {
        text.push_str(names[number])
    } else {
        Ok(())
    }
}

// Appends the quotient in lowest terms.
fn push_coefficient(text: &mut String, number: u128, den: u128) -> Result<(), AllocError>
    requires { den ≢ 0 }
    ensures { OnOk result (string_bytes text.new ≡ string_bytes text.old ++ coefficient_text number den) }
{
    let common = gcd(number, den);
    let below = den / common;
    push_number(text, number / common)?;
    if below != 1 {
        text.push_str("/")?;
        push_number(text, below)?;
    }
    Ok(())
}

fn push_number(text: &mut String, number: u128) -> Result<(), AllocError>
    ensures { OnOk result (string_bytes text.new ≡ string_bytes text.old ++ decimal number) }
{
    text.push_str(Buffer::new().format(number))
}
