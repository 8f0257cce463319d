// The words and signs of data.
ghost use Rattle.std.specs.Prelude.{◌<◌, ◌≤◌, length, IfSome};

/// The first word or sign of a text, and what stands behind it; nothing where only white space is left. A word is a run of
/// letters, digits, `_` and `'`, perhaps with a `-` in front.
pub fn next_token(text: &[u8]) -> Option<(&[u8], &[u8])>
    ensures { IfSome result (λ found. length found.1.now < length text.now) }
{
    let start = text.iter().position(|byte| !is_blank(*byte))?;
    let rest = &text[start..];
    Some(rest.split_at(token_length(rest)))
}

fn is_blank(byte: u8) -> bool {
    matches!(byte, b' ' | b'\t' | b'\n' | b'\r')
}

// How long the first word or sign is: at least one byte.
fn token_length(text: &[u8]) -> usize
    requires { 0 < length text.now }
    ensures some { 0 < result }
    ensures within { result ≤ length text.now }
{
    let front = if text[0] == b'-' { 1 } else { 0 };
    let word = text[front..]
        .iter()
        .position(|byte| !is_word_part(*byte))
        .unwrap_or(text.len() - front);
    (front + word).max(1)
}

fn is_word_part(byte: u8) -> bool {
    matches!(byte, b'a'..=b'z' | b'A'..=b'Z' | b'0'..=b'9' | b'_' | b'\'')
}
