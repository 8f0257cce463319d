// A field of a header part.
ghost use Rattle.std.specs.Prelude.{◌≡◌, ◌≤◌, ◌+◌, ◌*◌, ◌-◌, min};
ghost use Rattle.std.specs.List.{list_all};
ghost use Rattle.std.specs.Char.{is_ascii_digit};
ghost use Rattle.lsp_frames.specs.Fields.{is_numeral, most_content, number_after, number_in, told_in, told_by};

use crate::blanks::trimmed;
use crate::find::find;

/// Lengths beyond 64 MiB are a fault.
const MOST_CONTENT: usize = 67_108_864;

/// Why no message stands where one should. Nothing behind it is read.
#[derive(Clone, Copy, Debug, PartialEq, Eq)]
pub enum FrameFault {
    /// The header part has not ended after 8192 bytes.
    HeaderTooLong,
    /// A line of the header part has no colon.
    MalformedHeader,
    /// The length is not written in digits.
    NotANumber,
    /// The length is beyond 64 MiB, which are 67108864 bytes.
    ContentTooLong,
    /// The header part tells the length twice.
    LengthTwice,
    /// The header part does not tell the length.
    NoLength,
}

/// The length that a line of a header part tells, and `None` for a line of another field.
pub fn length_told(line: &[u8]) -> Result<Option<usize>, FrameFault>
    ensures { result ≡ told_by line.now }
{
    match find(line, b":") {
        Some(place) => length_of_field(&line[..place], &line[place + 1..]),
        None => Err(FrameFault::MalformedHeader),
    }
}

// The length that a field of this name tells.
fn length_of_field(name: &[u8], value: &[u8]) -> Result<Option<usize>, FrameFault>
    ensures { result ≡ told_in name.now value.now }
{
    if name.eq_ignore_ascii_case(b"content-length") {
        number_in(trimmed(value))
    } else {
        Ok(None)
    }
}

// The length that a text tells.
fn number_in(text: &[u8]) -> Result<Option<usize>, FrameFault>
    ensures { result ≡ number_in text.now }
{
    if !is_numeral(text) {
        return Err(FrameFault::NotANumber);
    }
    let number = capped_number(text);
    if number > MOST_CONTENT {
        return Err(FrameFault::ContentTooLong);
    }
    Ok(Some(number))
}

// Whether the text is digits, at least one.
fn is_numeral(text: &[u8]) -> bool
    ensures { result ≡ is_numeral text.now }
{
    !text.is_empty() && are_digits(text)
}

// Whether each byte is a digit.
fn are_digits(text: &[u8]) -> bool
    ensures { result ≡ list_all is_ascii_digit text.now }
{
    for byte in text {
        if !byte.is_ascii_digit() {
            return false;
        }
    }
    true
}

// The number that digits write, or the first one that is too great.
fn capped_number(digits: &[u8]) -> usize
    ensures { result ≡ min (number_after 0 digits.now) (most_content + 1) }
{
    let mut number = 0;
    for digit in digits {
        number = with_digit(number, *digit);
    }
    number
}

// The number with one digit more, or the first one that is too great.
fn with_digit(number: usize, digit: u8) -> usize
    requires { number ≤ most_content + 1 }
    ensures { result ≡ min (number * 10 + (digit - 48)) (most_content + 1) }
{
    (number * 10 + digit.saturating_sub(b'0') as usize).min(MOST_CONTENT + 1)
}
