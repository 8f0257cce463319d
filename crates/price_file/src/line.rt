// Lines of a table of prices.
ghost use Rattle.std.specs.Prelude.{◌≡◌, ◌≤◌, IfSome};
ghost use Rattle.std.specs.Str.{all_ascii_digits};
ghost use Rattle.raml_syntax.specs.Cut.{lent_parts, cut_at};
ghost use Rattle.price_file.specs.Reading.{is_short, price_read, entry_of};

use crate::construct::Construct;

/// The greatest price, in ticks.
const MOST: u32 = 1000000;

/// What stands before the first line feed of a text, and behind it.
pub fn cut_line<'a>(text: &'a str) -> Option<(&'a str, &'a str)>
    ensures { lent_parts result ≡ cut_at 10 text.now }
{
    text.split_once('\n')
}

/// What stands before the first space of a line, and behind it.
fn cut_name<'a>(line: &'a str) -> Option<(&'a str, &'a str)>
    ensures { lent_parts result ≡ cut_at 32 line.now }
{
    line.split_once(' ')
}

fn are_digits(bytes: &[u8]) -> bool
    ensures { result ≡ all_ascii_digits bytes.now }
{
    bytes.iter().all(|byte| byte.is_ascii_digit())
}

/// Whether these are one to seven digits.
fn is_short(bytes: &[u8]) -> bool
    ensures { result ≡ is_short bytes.now }
{
    matches!(bytes.len(), 1..=7) && are_digits(bytes)
}

/// The price that one to seven digits spell.
fn price(digits: &str) -> Option<u32>
    ensures price { result ≡ price_read digits.now }
    ensures small { IfSome result (λ price. price ≤ 1000000) }
{
    if !is_short(digits.as_bytes()) {
        return None;
    }
    match digits.parse::<u32>() {
        Ok(price) => (price <= MOST).then_some(price),
        Err(_) => None,
    }
}

/// The construct and the price that a line sets.
pub fn entry(line: &str) -> Option<(Construct, u32)>
    ensures entry { result ≡ entry_of line.now }
    ensures small { IfSome result (λ entry. entry.1 ≤ 1000000) }
{
    let (name, digits) = cut_name(line)?;
    let construct = Construct::named(name)?;
    let price = price(digits)?;
    Some((construct, price))
}
