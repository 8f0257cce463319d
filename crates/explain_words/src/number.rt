// Numbers in words.
ghost use Rattle.std.specs.Prelude.{◌≡◌, ◌≤◌, IfSome};
ghost use Rattle.std.specs.Str.{all_ascii_digits};
ghost use Rattle.explain_words.specs.Spelled.{are_digits, degree_in, is_numeral, number_in, pivots_in, seed_in};

/// The greatest degree that may be asked for.
const MOST_DEGREE: u128 = 4;

/// The degree that a word gives: `1`, `2`, `3` or `4`.
pub fn degree_in(word: &str) -> Option<u8>
    ensures { result ≡ degree_in word.now }
{
    let degree = number_in(1, 1, MOST_DEGREE, word)?;
    Some(degree as u8)
}

/// The greatest seed.
const MOST_SEED: u128 = 18_446_744_073_709_551_615;

/// The seed that a word gives: at most twenty digits, less than 2^64.
pub fn seed_in(word: &str) -> Option<u64>
    ensures { result ≡ seed_in word.now }
{
    let seed = number_in(20, 0, MOST_SEED, word)?;
    Some(seed as u64)
}

/// The greatest number of pivots.
const MOST_PIVOTS: u128 = 1_000_000_000;

/// The number of pivots that a word gives: at most 1,000,000,000.
pub fn pivots_in(word: &str) -> Option<usize>
    ensures { result ≡ pivots_in word.now }
{
    let pivots = number_in(10, 0, MOST_PIVOTS, word)?;
    Some(pivots as usize)
}

/// The number that digits spell, at least one and at most so many, where it is in the range.
pub fn number_in(digits: usize, least: u128, most: u128, word: &str) -> Option<u128>
    ensures number { result ≡ number_in digits least most word.now }
    ensures within { IfSome result (λ value. value ≤ most) }
{
    if !is_numeral(digits, word.as_bytes()) {
        return None;
    }
    match word.parse::<u128>() {
        Ok(value) => (least..=most).contains(&value).then_some(value),
        Err(_) => None,
    }
}

// Whether these are digits, at least one and at most so many.
fn is_numeral(digits: usize, bytes: &[u8]) -> bool
    ensures { result ≡ is_numeral digits bytes.now }
{
    are_digits(bytes) && bytes.len() <= digits
}

// Whether these are digits, at least one.
fn are_digits(bytes: &[u8]) -> bool
    ensures { result ≡ are_digits bytes.now }
{
    !bytes.is_empty() && are_all_digits(bytes)
}

fn are_all_digits(bytes: &[u8]) -> bool
    ensures { result ≡ all_ascii_digits bytes.now }
{
    bytes.iter().all(|byte| byte.is_ascii_digit())
}
