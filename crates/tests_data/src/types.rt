// Types from words.
use raml_syntax::Ty;
use std::alloc::Global;
use std::test::Fail;

fn last(types: &mut Vec<Ty>) -> Result<Ty, Fail> {
    match types.pop() {
        Some(ty) => Ok(ty),
        None => Err(Fail::from("there is no type")),
    }
}

fn boxed(alloc: Global, types: &mut Vec<Ty>) -> Result<Box<Ty>, Fail> {
    Ok(Box::new(alloc, last(types)?)?)
}

fn pair(alloc: Global, types: &mut Vec<Ty>) -> Result<Ty, Fail> {
    let second = boxed(alloc, types)?;
    Ok(Ty::Pair(boxed(alloc, types)?, second))
}

// The type that a word makes of the last types.
fn made(alloc: Global, types: &mut Vec<Ty>, word: &str) -> Result<Ty, Fail> {
    match word {
        "int" => Ok(Ty::Int),
        "bool" => Ok(Ty::Bool),
        "pair" => pair(alloc, types),
        "list" => Ok(Ty::List(boxed(alloc, types)?)),
        "tree" => Ok(Ty::Tree(boxed(alloc, types)?)),
        "option" => Ok(Ty::Opt(boxed(alloc, types)?)),
        _ => Err(Fail::from("it is no type")),
    }
}

fn push_made(alloc: Global, types: &mut Vec<Ty>, word: &str) -> Result<(), Fail> {
    let ty = made(alloc, types, word)?;
    types.push(ty)?;
    Ok(())
}

/// The types that words make: `list`, `tree` and `option` take the type before them, and `pair` the two
/// types before it.
pub fn types_of(alloc: Global, words: &str) -> Result<Vec<Ty>, Fail> {
    let mut types = Vec::new(alloc);
    for word in words.split_whitespace() {
        push_made(alloc, &mut types, word)?;
    }
    Ok(types)
}

/// Adds the text so many times.
pub fn push_repeated(all: &mut String, text: &str, times: usize) -> Result<(), Fail> {
    for _ in 0..times {
        all.push_str(text)?;
    }
    Ok(())
}

/// The text so many times.
pub fn repeated(alloc: Global, text: &str, times: usize) -> Result<String, Fail> {
    let mut all = String::new(alloc);
    push_repeated(&mut all, text, times)?;
    Ok(all)
}
