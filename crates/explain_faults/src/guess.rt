// What to write in the place of a typical mistake. Each is a guess: it is offered only where it mends the fault.
use crate::listed::list_edit;
use crate::site::{Site, blank_len, front, is_blank, text_of, word_len};
use explain_messages::{CaseHint, FormHint, Hint, SignHint, TypeHint, WordHint};
use lsp_language::Edit;
use std::alloc::{AllocError, Global};

/// What the hint for a fault at the place asks to write. None where that takes more than other words there.
pub(crate) fn guess(alloc: Global, site: Site, hint: Hint) -> Result<Option<Edit>, AllocError> {
    match hint {
        Hint::Sign(hint) => sign_edit(alloc, site, hint),
        Hint::Word(hint) => word_edit(alloc, site, hint),
        Hint::Form(hint) => form_edit(alloc, site, hint),
        Hint::Case(CaseHint::NoBar) => Ok(Some(site.edit(alloc, 0, 1, "")?)),
        Hint::Case(CaseHint::Arrow) => arrow_edit(alloc, site),
        Hint::Type(TypeHint::Order) => order_edit(alloc, site),
        Hint::Bits(_) | Hint::Case(_) | Hint::Pair(_) | Hint::Type(_) => Ok(None),
    }
}

fn sign_edit(alloc: Global, site: Site, hint: SignHint) -> Result<Option<Edit>, AllocError> {
    match hint {
        SignHint::Brackets => list_edit(alloc, site),
        SignHint::Equal => Ok(Some(site.edit(alloc, 0, 1, "")?)),
        SignHint::Minus => minus_edit(alloc, site),
        SignHint::Division => operator_edit(alloc, site, "div"),
        SignHint::Remainder => operator_edit(alloc, site, "mod"),
        SignHint::Semicolon => Ok(Some(site.edit(alloc, 0, 1, " in")?)),
        SignHint::Comment => comment_edit(alloc, site),
        _ => Ok(None),
    }
}

/// `(0 - 1)` for `-1` and `~1`.
fn minus_edit(alloc: Global, site: Site) -> Result<Option<Edit>, AllocError> {
    let digits = site.rest.get(1..).unwrap_or(&[]);
    let length = word_len(digits);
    if length == 0 {
        return Ok(None);
    }
    let words = format!(in alloc; "(0 - {})", front(digits, length))?;
    Ok(Some(site.edit(alloc, 0, length.saturating_add(1), &words)?))
}

/// The operator for a sign, with blanks where there are none.
fn operator_edit(alloc: Global, site: Site, name: &str) -> Result<Option<Edit>, AllocError> {
    let behind = site.rest.get(1).copied().unwrap_or(b' ');
    let last = site.before.last().copied().unwrap_or(b' ');
    let mut words = String::new(alloc);
    if !is_blank(last) {
        words.push(' ')?;
    }
    words.push_str(name)?;
    if !is_blank(behind) {
        words.push(' ')?;
    }
    Ok(Some(site.edit(alloc, 0, 1, &words)?))
}

/// `(* .. *)` for a comment up to the end of the line, that begins with `//`, `#` or `--`.
fn comment_edit(alloc: Global, site: Site) -> Result<Option<Edit>, AllocError> {
    let back = if site.before.ends_with(b"-") { 1 } else { 0 };
    let length = site
        .rest
        .iter()
        .position(|byte| *byte == b'\n')
        .unwrap_or(site.rest.len());
    let words = front(site.rest, length).trim_start_matches(['/', '#', '-']);
    let words = format!(in alloc; "(*{words} *)")?;
    Ok(Some(site.edit(alloc, back, length, &words)?))
}

fn word_edit(alloc: Global, site: Site, hint: WordHint) -> Result<Option<Edit>, AllocError> {
    let length = word_len(site.rest);
    match hint {
        WordHint::Not => Ok(Some(site.edit(alloc, 0, 1, "not ")?)),
        WordHint::ElseIf => Ok(Some(site.edit(alloc, 0, length, "else if")?)),
        WordHint::End => Ok(Some(site.edit(alloc, 0, length, "")?)),
        WordHint::Capital => capital_edit(alloc, site, length),
        _ => Ok(None),
    }
}

/// The word with a small letter at its front.
fn capital_edit(alloc: Global, site: Site, length: usize) -> Result<Option<Edit>, AllocError> {
    let mut words = String::new(alloc);
    for c in front(site.rest, length).chars() {
        words.push(if words.is_empty() {
            c.to_ascii_lowercase()
        } else {
            c
        })?;
    }
    Ok(Some(site.edit(alloc, 0, length, &words)?))
}

fn form_edit(alloc: Global, site: Site, hint: FormHint) -> Result<Option<Edit>, AllocError> {
    match hint {
        FormHint::TickIn if site.rest.starts_with(b";") => {
            Ok(Some(site.edit(alloc, 0, 1, " in")?))
        }
        FormHint::TickIn | FormHint::LetIn => Ok(Some(site.edit(alloc, 0, 0, "in ")?)),
        FormHint::Recursion => recursion_edit(alloc, site),
        _ => Ok(None),
    }
}

/// The `rec` before the place is left out.
fn recursion_edit(alloc: Global, site: Site) -> Result<Option<Edit>, AllocError> {
    let before = text_of(site.before);
    let kept = before.trim_end().len();
    if !before.trim_end().ends_with("rec") {
        return Ok(None);
    }
    let back = before.len().saturating_sub(kept).saturating_add(3);
    Ok(Some(site.edit(alloc, back, 0, "")?))
}

/// `->` for `=` and `=>`.
fn arrow_edit(alloc: Global, site: Site) -> Result<Option<Edit>, AllocError> {
    if site.rest.starts_with(b"=") {
        Ok(Some(site.edit(alloc, 0, 1, "->")?))
    } else if site.rest.starts_with(b">") && site.before.ends_with(b"=") {
        Ok(Some(site.edit(alloc, 1, 1, "->")?))
    } else {
        Ok(None)
    }
}

/// `int list` for `list int`.
fn order_edit(alloc: Global, site: Site) -> Result<Option<Edit>, AllocError> {
    let outer = site.word();
    let behind = site.rest.get(outer.len()..).unwrap_or(&[]);
    let gap = blank_len(behind);
    let next = behind.get(gap..).unwrap_or(&[]);
    let inner = front(next, word_len(next));
    if !matches!(inner, "int" | "bool") {
        return Ok(None);
    }
    let words = format!(in alloc; "{inner} {outer}")?;
    let length = outer.len().saturating_add(gap).saturating_add(inner.len());
    Ok(Some(site.edit(alloc, 0, length, &words)?))
}
