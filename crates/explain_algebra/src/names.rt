// The names of sizes.
ghost use Rattle.std.specs.Prelude.{◌≡◌, not, [], ◌∷◌, filter, slice_get, IfOk};
ghost use Rattle.std.specs.List.{list_any};
ghost use Rattle.std.specs.Str.{bytes_eq};
ghost use Rattle.raml_syntax.specs.Read.{ty_of};
ghost use Rattle.base_poly.specs.Read.{context_of};
ghost use Rattle.explain_algebra.specs.Algebra.{has_size, name_at, size_names, texts};
ghost use Rattle.explain_algebra.specs.Laws.{holds_no_size, is_shallow, are_shallow};

use raml_syntax::Ty;
use std::alloc::{AllocError, Global};

/// The letters that name sizes, in this order.
const LETTERS: &[u8] = b"nmkjihgfedcbaqpr";

/// The name of each parameter's size, where it has one: lists and trees do. Each is a letter that is
/// no parameter's name.
pub fn size_names(
    alloc: Global,
    types: &[Ty],
    params: &[&str],
) -> Result<Vec<Option<char>>, AllocError>
    ensures { IfOk result (λ names. names.items ≡ size_names (texts params.now) (context_of types.now)) }
{
    let letters = free_letters(alloc, LETTERS, params)?;
    let mut names = Vec::new(alloc);
    let mut named = 0;
    for ty in types {
        if has_size(ty) {
            names.push(letter(&letters, named))?;
            named += 1;
        } else {
            names.push(None)?;
        }
    }
    Ok(names)
}

// Those of the letters that are no parameter's name.
fn free_letters(alloc: Global, letters: &[u8], params: &[&str]) -> Result<Vec<u8>, AllocError>
    ensures { IfOk result (λ free. free.items ≡ filter (λ x. not (list_any (bytes_eq (x ∷ [])) (texts params.now))) letters.now) }
{
    let mut free = Vec::with_capacity(alloc, letters.len())?;
    for letter in letters {
        if !is_among(params, *letter) {
            free.push(*letter)?;
        }
    }
    Ok(free)
}

// Whether a parameter is called by the letter.
fn is_among(params: &[&str], letter: u8) -> bool
    ensures { result ≡ list_any (bytes_eq (letter ∷ [])) (texts params.now) }
{
    for param in params {
        if is_letter(param, letter) {
            return true;
        }
    }
    false
}

fn is_letter(param: &str, letter: u8) -> bool
    ensures { result ≡ bytes_eq (letter ∷ []) param.now }
{
    [letter].as_slice() == param.as_bytes()
}

/// Whether nothing in the parameters has a size but lists and trees that they are themselves.
pub fn are_shallow(params: &[Ty]) -> bool
    ensures { result ≡ are_shallow (context_of params.now) }
{
    for param in params {
        if !is_shallow(param) {
            return false;
        }
    }
    true
}

fn is_shallow(ty: &Ty) -> bool
    ensures { result ≡ is_shallow (ty_of ty.now) }
{
    match ty {
        Ty::List(element) | Ty::Tree(element) => holds_no_size(element),
        Ty::Int | Ty::Bool | Ty::Pair(..) | Ty::Opt(_) => holds_no_size(ty),
    }
}

fn holds_no_size(ty: &Ty) -> bool
    ensures { result ≡ holds_no_size (ty_of ty.now) }
{
    match ty {
        Ty::Int | Ty::Bool => true,
        Ty::Pair(first, second) => holds_no_size(first) && holds_no_size(second),
        Ty::List(_) | Ty::Tree(_) | Ty::Opt(_) => false,
    }
}

// The letter at this place, where there is one.
fn letter(letters: &[u8], place: usize) -> Option<char>
    ensures { result ≡ slice_get letters.now place }
{
    letters.get(place).map(|letter| char::from(*letter))
}

fn has_size(ty: &Ty) -> bool
    ensures { result ≡ has_size (ty_of ty.now) }
{
    match ty {
        Ty::List(_) | Ty::Tree(_) => true,
        Ty::Int | Ty::Bool | Ty::Pair(..) | Ty::Opt(_) => false,
    }
}

/// The name of the size of the parameter at this place, where it has one.
pub(crate) fn name_at(names: &[Option<char>], place: usize) -> Option<char>
    ensures { result ≡ name_at names.now place }
{
    if place < names.len() {
        names[place]
    } else {
        None
    }
}
