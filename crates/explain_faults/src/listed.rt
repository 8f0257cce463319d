// Lists in square brackets.
use crate::site::{Site, text_of, word_len};
use lsp_language::Edit;
use std::alloc::{AllocError, Global};

/// The list that stands in square brackets at the place, written by `::` and `nil`. None where no bracket closes it.
pub(crate) fn list_edit(alloc: Global, site: Site) -> Result<Option<Edit>, AllocError> {
    match closing(site.rest) {
        None => Ok(None),
        Some(close) => {
            let elements = site.rest.get(1..close).unwrap_or(&[]);
            let words = listed(alloc, elements)?;
            Ok(Some(site.edit(alloc, 0, close.saturating_add(1), &words)?))
        }
    }
}

/// Where the bracket stands that closes the one at the front.
fn closing(rest: &[u8]) -> Option<usize> {
    let mut depth = 0usize;
    for place in 0..rest.len() {
        match rest[place] {
            b'[' | b'(' => depth = depth.saturating_add(1),
            b']' | b')' => depth = depth.saturating_sub(1),
            _ => {}
        }
        if depth == 0 {
            return Some(place);
        }
    }
    None
}

/// The list of elements between `;` or `,`.
fn listed(alloc: Global, elements: &[u8]) -> Result<String, AllocError> {
    if text_of(elements).trim().is_empty() {
        return String::from_str(alloc, "nil");
    }
    let mut words = String::from_str(alloc, "(")?;
    push_elements(&mut words, elements)?;
    words.push_str("nil)")?;
    Ok(words)
}

/// Appends each element with its `::`.
fn push_elements(words: &mut String, elements: &[u8]) -> Result<(), AllocError> {
    let mut depth = 0usize;
    let mut start = 0;
    for place in 0..elements.len() {
        match elements[place] {
            b'(' => depth = depth.saturating_add(1),
            b')' => depth = depth.saturating_sub(1),
            b';' | b',' if depth == 0 => {
                push_element(words, elements.get(start..place).unwrap_or(&[]))?;
                start = place.saturating_add(1);
            }
            _ => {}
        }
    }
    push_element(words, elements.get(start..).unwrap_or(&[]))
}

/// Appends an element with its `::`, in parentheses where it is no word.
fn push_element(words: &mut String, element: &[u8]) -> Result<(), AllocError> {
    let element = text_of(element).trim();
    if word_len(element.as_bytes()) == element.len() {
        words.push_str(element)?;
    } else {
        words.push('(')?;
        words.push_str(element)?;
        words.push(')')?;
    }
    words.push_str(" :: ")
}
