// The terms of polynomials as JSON.
ghost use Rattle.std.specs.Prelude.{◌≡◌, ◌≢◌, [], ◌∷◌, ◌++◌, OnOk, IfOk, string_bytes};
ghost use Rattle.base_poly.specs.Poly.{den_of, terms_of, IsPoly};
ghost use Rattle.poly_text.specs.Text.{coefficient_text};
ghost use Rattle.json.specs.Token as token;
ghost use Rattle.json.specs.Tree.{json_tokens};
ghost use Rattle.explain_json.specs.Terms.{tuple_text, pair_json, term_json, terms_json};

use crate::coefficient::push_coefficient;
use crate::tuple::push_tuple;
use base_poly::{Poly, Tuple};
use json::Writer;
use std::alloc::{AllocError, Global};

/// Writes the terms of a polynomial as they stand: an array with `{"index":"<[_, _]>","coefficient":"3/2"}` for each.
pub fn write_poly(alloc: Global, writer: &mut Writer, poly: &Poly) -> Result<(), AllocError>
    requires { IsPoly poly.now }
    ensures written { OnOk result (writer.new.tokens
        ≡ writer.old.tokens ++ json_tokens (terms_json (den_of poly.now) (terms_of poly.now))) }
    ensures before { writer.new.before ≡ writer.old.before }
{
    let den = poly.den.unsigned_abs();
    writer.begin_array()?;
    for (tuple, number) in &poly.terms {
        write_term(alloc, writer, tuple, number.unsigned_abs(), den)?;
    }
    writer.end_array()
}

/// Writes a term: the tuple, and the number over the denominator in lowest terms.
pub fn write_term(
    alloc: Global,
    writer: &mut Writer,
    tuple: &Tuple,
    number: u128,
    den: u128,
) -> Result<(), AllocError>
    requires { den ≢ 0 }
    ensures written { OnOk result (writer.new.tokens ≡ writer.old.tokens ++ json_tokens (term_json den (tuple.now, number))) }
    ensures before { writer.new.before ≡ writer.old.before }
{
    let index = index(alloc, tuple)?;
    let coefficient = coefficient(alloc, number, den)?;
    write_pair(writer, &index, &coefficient)
}

// The text of a tuple.
fn index(alloc: Global, tuple: &Tuple) -> Result<String, AllocError>
    ensures { IfOk result (λ text. string_bytes text ≡ tuple_text tuple.now) }
{
    let mut text = String::new(alloc);
    push_tuple(&mut text, tuple)?;
    Ok(text)
}

// The text of a coefficient.
fn coefficient(alloc: Global, number: u128, den: u128) -> Result<String, AllocError>
    requires { den ≢ 0 }
    ensures { IfOk result (λ text. string_bytes text ≡ coefficient_text number den) }
{
    let mut text = String::new(alloc);
    push_coefficient(&mut text, number, den)?;
    Ok(text)
}

// Writes the object of both texts.
fn write_pair(writer: &mut Writer, index: &str, coefficient: &str) -> Result<(), AllocError>
    ensures written { OnOk result (writer.new.tokens ≡ writer.old.tokens ++ json_tokens (pair_json index.now coefficient.now)) }
    ensures before { writer.new.before ≡ writer.old.before }
{
    writer.begin_object()?;
    write_text(writer, "index", index)?;
    write_text(writer, "coefficient", coefficient)?;
    writer.end_object()
}

/// Writes a member whose value is a text.
pub fn write_text(writer: &mut Writer, key: &str, text: &str) -> Result<(), AllocError>
    ensures written { OnOk result (writer.new.tokens ≡ writer.old.tokens ++ token.key key.now ∷ token.string text.now ∷ []) }
    ensures before { writer.new.before ≡ writer.old.before }
{
    writer.key(key)?;
    writer.string(text)
}
