// What an outline shows of a text, and which of its lines can be folded away.
ghost use Rattle.std.specs.Prelude.{◌≡◌, IfOk};
ghost use Rattle.serde_json.specs.View.{view};
ghost use Rattle.lsp_results.specs.Outline.{IsOfSymbols, symbol_json, symbols_json, first_line, last_line, has_lines, fold_json, folds_json};

use crate::place::{end_of, span_value};
use lsp_documents::Document;
use lsp_language::{Language, Symbol};
use lsp_positions::Encoding;
use serde_json::{Value, json, push};
use std::alloc::{AllocError, Global};

/// What an outline shows of a document, by what the language tells of its text.
pub fn symbols_told<L: Language>(
    alloc: Global,
    language: &L,
    encoding: Encoding,
    document: &Document,
) -> Result<Value, AllocError>
    ensures { IfOk result (λ value. IsOfSymbols (L.tells language.now) document.now.text (symbols_json encoding document.now.text) (view value)) }
{
    let symbols = language.symbols(alloc, document.text())?;
    symbols_value(alloc, encoding, document, &symbols)
}

/// The lines of a document that can be folded away: those of what an outline shows.
pub fn folds_told<L: Language>(
    alloc: Global,
    language: &L,
    encoding: Encoding,
    document: &Document,
) -> Result<Value, AllocError>
    ensures { IfOk result (λ value. IsOfSymbols (L.tells language.now) document.now.text (folds_json encoding document.now.text) (view value)) }
{
    let symbols = language.symbols(alloc, document.text())?;
    folds_value(alloc, encoding, document, &symbols)
}

fn symbols_value(
    alloc: Global,
    encoding: Encoding,
    document: &Document,
    symbols: &[Symbol],
) -> Result<Value, AllocError>
    ensures { IfOk result (λ value. view value ≡ symbols_json encoding document.now.text symbols.now) }
{
    let mut items = Vec::new(alloc);
    for symbol in symbols {
        push(&mut items, symbol_value(alloc, encoding, document, symbol)?)?;
    }
    Ok(Value::Array(items))
}

// The kind of a function.
const FUNCTION: u32 = 12;

fn symbol_value(
    alloc: Global,
    encoding: Encoding,
    document: &Document,
    symbol: &Symbol,
) -> Result<Value, AllocError>
    ensures { IfOk result (λ value. view value ≡ symbol_json encoding document.now.text symbol.now) }
{
    let whole = span_value(alloc, encoding, document, symbol.whole)?;
    let binding = span_value(alloc, encoding, document, symbol.binding)?;
    json!(in alloc; {
        "kind": FUNCTION,
        "name": (symbol.name.as_str()),
        "range": whole,
        "selectionRange": binding
    })
}

fn folds_value(
    alloc: Global,
    encoding: Encoding,
    document: &Document,
    symbols: &[Symbol],
) -> Result<Value, AllocError>
    ensures { IfOk result (λ value. view value ≡ folds_json encoding document.now.text symbols.now) }
{
    let mut items = Vec::new(alloc);
    for symbol in symbols {
        if has_lines(encoding, document, symbol) {
            push(&mut items, fold_value(alloc, encoding, document, symbol)?)?;
        }
    }
    Ok(Value::Array(items))
}

fn has_lines(encoding: Encoding, document: &Document, symbol: &Symbol) -> bool
    ensures { result ≡ has_lines encoding document.now.text symbol.now }
{
    first_line(encoding, document, symbol) < last_line(encoding, document, symbol)
}

fn fold_value(
    alloc: Global,
    encoding: Encoding,
    document: &Document,
    symbol: &Symbol,
) -> Result<Value, AllocError>
    ensures { IfOk result (λ value. view value ≡ fold_json encoding document.now.text symbol.now) }
{
    let first = first_line(encoding, document, symbol);
    let last = last_line(encoding, document, symbol);
    json!(in alloc; {"endLine": last, "startLine": first})
}

fn first_line(encoding: Encoding, document: &Document, symbol: &Symbol) -> usize
    ensures { result ≡ first_line encoding document.now.text symbol.now }
{
    document.position(encoding, symbol.whole.start).line
}

fn last_line(encoding: Encoding, document: &Document, symbol: &Symbol) -> usize
    ensures { result ≡ last_line encoding document.now.text symbol.now }
{
    document.position(encoding, end_of(symbol.whole)).line
}
