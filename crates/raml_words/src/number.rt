// Numbers in words.
ghost use Rattle.std.specs.Prelude.{◌≡◌, ◌≤◌, IfSome};
ghost use Rattle.std.specs.Str.{all_ascii_digits};
ghost use Rattle.std.specs.List.{list_all};
ghost use Rattle.raml_words.specs.Words.{texts};
ghost use Rattle.raml_words.specs.Sorting.{lent, is_number, number_in};
ghost use Rattle.raml_words.specs.Made.{given_number};

/// The number that one to ten digits spell, where it is in the range.
pub fn number_in(least: u64, most: u64, word: &str) -> Option<u64>
    ensures number { result ≡ number_in least most word.now }
    ensures within { IfSome result (λ value. value ≤ most) }
{
    if !is_number(word.as_bytes()) {
        return None;
    }
    match word.parse::<u64>() {
        Ok(value) => (least..=most).contains(&value).then_some(value),
        Err(_) => None,
    }
}

/// Whether these are one to ten digits.
pub fn is_number(bytes: &[u8]) -> bool
    ensures { result ≡ is_number bytes.now }
{
    matches!(bytes.len(), 1..=10) && are_digits(bytes)
}

fn are_digits(bytes: &[u8]) -> bool
    ensures { result ≡ all_ascii_digits bytes.now }
{
    bytes.iter().all(|byte| byte.is_ascii_digit())
}

/// Whether each of the words is one to ten digits.
pub fn are_numbers(words: &[&str]) -> bool
    ensures { result ≡ list_all is_number (texts words.now) }
{
    for word in words {
        if !is_number(word.as_bytes()) {
            return false;
        }
    }
    true
}

/// Whether a value that is there is one to ten digits.
pub fn given_number(value: Option<&str>) -> bool
    ensures { result ≡ given_number (lent value.entry) }
{
    match value {
        Some(word) => is_number(word.as_bytes()),
        None => true,
    }
}
