// What is told of a function wherever its name stands.
ghost use Rattle.std.specs.Prelude.{◌≡◌, ◌<◌, ◌^◌, All, Some, length, take, drop, IfOk, IfSome, OnOk};
ghost use Rattle.raml_syntax.specs.Place.{place_of};
ghost use Rattle.raml_syntax.specs.Read.{program_of};
ghost use Rattle.explain_insight.specs.Read.{CanBeToldIn, IsHoverIn};

use crate::analysed::Analysed;
use crate::function::function_text;
use explain_tokens::{source_tokens, word};
use lsp_language::{Hover, Span};
use raml_lex::Token;
use std::alloc::{AllocError, Global};

/// Appends what is told of functions, at each name that stands before a `(`: where a function begins, and where it is called.
pub(crate) fn push_function_hovers(
    alloc: Global,
    hovers: &mut Vec<Hover>,
    analysed: &Analysed<'_>,
) -> Result<(), AllocError>
    requires told { CanBeToldIn analysed.now }
    requires few { length (program_of analysed.now.program.now) < 2 ^ 32 }
    requires hovers { All (IsHoverIn analysed.now) hovers.old.items }
    ensures { OnOk result (All (IsHoverIn analysed.now) hovers.new.items) }
{
    let Some(tokens) = source_tokens(alloc, analysed.source)? else {
        return Ok(());
    };
    for place in 1..tokens.len() {
        if word(analysed.source, &tokens[place]) == b"(".as_slice() {
            push_named(alloc, hovers, analysed, &tokens[place - 1])?;
        }
    }
    Ok(())
}

/// Appends what is told of the function that a token names, if it names one.
fn push_named(
    alloc: Global,
    hovers: &mut Vec<Hover>,
    analysed: &Analysed<'_>,
    token: &Token,
) -> Result<(), AllocError>
    requires told { CanBeToldIn analysed.now }
    requires few { length (program_of analysed.now.program.now) < 2 ^ 32 }
    requires hovers { All (IsHoverIn analysed.now) hovers.old.items }
    ensures { OnOk result (All (IsHoverIn analysed.now) hovers.new.items) }
{
    let Some(place) = function_at(analysed, token) else {
        return Ok(());
    };
    match hover_at(alloc, analysed, token, place)? {
        Some(hover) => {
            hovers.push(hover)?;
            Ok(())
        }
        None => Ok(()),
    }
}

/// The place of the function that a token names.
fn function_at(analysed: &Analysed<'_>, token: &Token) -> Option<usize>
    requires { length (program_of analysed.now.program.now) < 2 ^ 32 }
    ensures { IfSome result (λ place.
        place_of (drop token.now.at.0 (take token.now.end.0 analysed.now.source.now)) (program_of analysed.now.program.now) ≡ Some place) }
{
    match std::str::from_utf8(word(analysed.source, token)) {
        Ok(name) => match analysed.program.find(name) {
            Some(fun) => Some(fun.0 as usize),
            None => None,
        },
        Err(_) => None,
    }
}

/// What is told of the function at a place on a token that names it. None where no function stands there.
fn hover_at(
    alloc: Global,
    analysed: &Analysed<'_>,
    token: &Token,
    place: usize,
) -> Result<Option<Hover>, AllocError>
    requires told { CanBeToldIn analysed.now }
    requires named { place_of (drop token.now.at.0 (take token.now.end.0 analysed.now.source.now)) (program_of analysed.now.program.now)
        ≡ Some place }
    ensures { IfOk result (λ hover. IfSome hover (IsHoverIn analysed.now)) }
{
    let Some(fun) = analysed.program.funs.get(place) else {
        return Ok(None);
    };
    let Some(found) = analysed.findings.get(place) else {
        return Ok(None);
    };
    Ok(Some(Hover {
        span: Span {
            start: token.at.0 as usize,
            end: token.end.0 as usize,
        },
        text: function_text(alloc, analysed.program, fun, found)?,
    }))
}
