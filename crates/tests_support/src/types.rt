//! Types and contexts to try.
use raml_syntax::Ty;
use std::alloc::{AllocError, Global};
use std::test::Fail;

// Adds the type of the word, made of the last ones.
fn push_read(alloc: Global, word: &str, types: &mut Vec<Ty>) -> Result<(), Fail> {
    let ty = read(alloc, word, types)?;
    types.push(ty)?;
    Ok(())
}

/// The types that the words spell: `list`, `tree` and `option` are made of the type before them, and
/// `pair` of the two types before it.
pub fn context(alloc: Global, words: &str) -> Result<Vec<Ty>, Fail> {
    let mut types = Vec::new(alloc);
    for word in words.split_whitespace() {
        push_read(alloc, word, &mut types)?;
    }
    Ok(types)
}

/// The last of the types that the words spell.
pub fn last_type(alloc: Global, words: &str) -> Result<Ty, Fail> {
    Ok(context(alloc, words)?.pop().ok_or("no type")?)
}

// The type of the word, made of the last ones.
fn read(alloc: Global, word: &str, types: &mut Vec<Ty>) -> Result<Ty, Fail> {
    match word {
        "int" => Ok(Ty::Int),
        "bool" => Ok(Ty::Bool),
        "list" => Ok(Ty::List(taken(alloc, types)?)),
        "tree" => Ok(Ty::Tree(taken(alloc, types)?)),
        "option" => Ok(Ty::Opt(taken(alloc, types)?)),
        "pair" => pair(alloc, types),
        _ => Err(Fail::from("a word")),
    }
}

fn pair(alloc: Global, types: &mut Vec<Ty>) -> Result<Ty, Fail> {
    let second = taken(alloc, types)?;
    Ok(Ty::Pair(taken(alloc, types)?, second))
}

fn taken(alloc: Global, types: &mut Vec<Ty>) -> Result<Box<Ty>, Fail> {
    let ty = types.pop().ok_or("a type is missing")?;
    Ok(Box::new(alloc, ty)?)
}

/// As many lists of integers.
pub fn lists(alloc: Global, count: usize) -> Result<Vec<Ty>, AllocError> {
    let mut types = Vec::new(alloc);
    for _ in 0..count {
        types.push(Ty::List(Box::new(alloc, Ty::Int)?))?;
    }
    Ok(types)
}

/// A pair of an `int list` and the rest, as often as there are to be lists.
pub fn joined_lists(alloc: Global, count: usize) -> Result<Ty, AllocError> {
    let mut joined = Ty::List(Box::new(alloc, Ty::Int)?);
    for _ in 1..count {
        let list = Box::new(alloc, Ty::List(Box::new(alloc, Ty::Int)?))?;
        joined = Ty::Pair(list, Box::new(alloc, joined)?);
    }
    Ok(joined)
}
