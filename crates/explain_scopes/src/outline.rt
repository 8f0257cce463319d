// The functions of a text, as an outline shows them.
ghost use Rattle.std.specs.Prelude.{◌≡◌, ◌++◌, All, IfOk, OnOk};
ghost use Rattle.raml_lex.specs.Lexing.{StandsIn, word};
ghost use Rattle.explain_scopes.specs.Outline as o;
ghost use Rattle.explain_scopes.specs.Read.{IsOutline, plain_part, plain_symbol, plain_symbols};

use crate::lexed::{MOST_BYTES, lexed};
use lsp_language::{Span, Symbol};
use raml_lex::{Token, TokenKind};
use raml_syntax::Pos;
use std::alloc::{AllocError, Global};

/// The bytes of a token.
pub fn word<'a>(text: &'a str, token: &Token) -> &'a str
    requires { StandsIn text.now token.now }
    ensures { result.now ≡ word text.now token.now }
{
    &text[token.at.0 as usize..token.end.0 as usize]
}

/// Whether a function begins with the token.
fn begins(text: &str, token: &Token) -> bool
    requires { StandsIn text.now token.now }
    ensures { result ≡ o.begins text.now token.now }
{
    word(text, token) == "fun"
}

/// Where the last of these tokens before the next function ends, behind one that ends here.
fn last_end(text: &str, end: Pos, tokens: &[Token]) -> Pos
    requires { All (StandsIn text.now) tokens.now }
    ensures { result.0 ≡ o.last_end text.now end.0 tokens.now }
{
    let mut last = end;
    for token in tokens {
        if begins(text, token) {
            return last;
        }
        last = token.end;
    }
    last
}

fn span(at: Pos, end: Pos) -> Span
    ensures start { result.start ≡ at.0 }
    ensures end { result.end ≡ end.0 }
{
    Span {
        start: at.0 as usize,
        end: end.0 as usize,
    }
}

/// The function of a `fun`, with its name and what is behind that.
fn symbol(
    alloc: Global,
    text: &str,
    token: &Token,
    name: &Token,
    behind: &[Token],
) -> Result<Symbol, AllocError>
    requires name { StandsIn text.now name.now }
    requires behind { All (StandsIn text.now) behind.now }
    ensures { IfOk result (λ symbol. plain_symbol symbol ≡ o.symbol text.now token.now name.now behind.now) }
{
    Ok(Symbol {
        name: String::from_str(alloc, word(text, name))?,
        whole: span(token.at, last_end(text, name.end, behind)),
        binding: span(name.at, name.end),
    })
}

/// Adds the function that begins with the token, if one does.
fn push_symbol_at(
    found: &mut Vec<Symbol>,
    alloc: Global,
    text: &str,
    token: &Token,
    behind: &[Token],
) -> Result<(), AllocError>
    requires token { StandsIn text.now token.now }
    requires behind { All (StandsIn text.now) behind.now }
    ensures { OnOk result (plain_symbols found.new.items ≡ plain_symbols found.old.items ++ o.symbols_at text.now token.now behind.now) }
{
    match behind {
        [name, rest @ ..] => {
            if begins(text, token) && matches!(name.kind, TokenKind::Name) {
                found.push(symbol(alloc, text, token, name, rest)?)?;
            }
            Ok(())
        }
        [] => Ok(()),
    }
}

/// The functions of a text with these tokens.
fn symbols(alloc: Global, text: &str, tokens: &[Token]) -> Result<Vec<Symbol>, AllocError>
    requires { All (StandsIn text.now) tokens.now }
    ensures { IfOk result (λ found. plain_symbols found.items ≡ o.symbols text.now tokens.now) }
{
    let mut found = Vec::new(alloc);
    for place in 0..tokens.len() {
        push_symbol_at(
            &mut found,
            alloc,
            text,
            &tokens[place],
            &tokens[place + 1..],
        )?;
    }
    Ok(found)
}

/// The functions of a text, in their order, each from its `fun` to its last token. A text that has no tokens has none.
pub fn symbols_of(alloc: Global, text: &str) -> Result<Vec<Symbol>, AllocError>
    ensures { IfOk result (λ found. IsOutline text.now found.items) }
{
    if text.len() > MOST_BYTES {
        return Ok(Vec::new(alloc));
    }
    match lexed(alloc, text)? {
        Some(tokens) => symbols(alloc, text, &tokens),
        None => Ok(Vec::new(alloc)),
    }
}
