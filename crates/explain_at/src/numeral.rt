// Numbers in words.
ghost use Rattle.std.specs.Prelude.{◌≡◌};
ghost use Rattle.std.specs.Str.{all_ascii_digits};
ghost use Rattle.explain_at.specs.Words.{are_digits, is_short, number_in};

/// Whether these are digits, at least one.
pub fn are_digits(bytes: &[u8]) -> bool
    ensures { result ≡ are_digits bytes.now }
{
    !bytes.is_empty() && are_all_digits(bytes)
}

fn are_all_digits(bytes: &[u8]) -> bool
    ensures { result ≡ all_ascii_digits bytes.now }
{
    bytes.iter().all(|byte| byte.is_ascii_digit())
}

// Whether these are one to ten digits.
fn is_short(bytes: &[u8]) -> bool
    ensures { result ≡ is_short bytes.now }
{
    are_digits(bytes) && bytes.len() <= 10
}

/// The number that one to ten digits spell.
pub fn number_in(word: &str) -> Option<u64>
    ensures { result ≡ number_in word.now }
{
    if !is_short(word.as_bytes()) {
        return None;
    }
    match word.parse::<u64>() {
        Ok(number) => Some(number),
        Err(_) => None,
    }
}
