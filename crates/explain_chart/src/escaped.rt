// Texts between tags.
use std::alloc::{AllocError, Global};

/// A text as it stands between tags.
pub(crate) fn escaped(alloc: Global, text: &str) -> Result<String, AllocError> {
    let mut escaped = String::new(alloc);
    for sign in text.chars() {
        match sign {
            '&' => escaped.push_str("&amp;")?,
            '<' => escaped.push_str("&lt;")?,
            '>' => escaped.push_str("&gt;")?,
            _ => escaped.push(sign)?,
        }
    }
    Ok(escaped)
}
