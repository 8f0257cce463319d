// One word of sizes.
ghost use Rattle.std.specs.Prelude.{◌≡◌};
ghost use Rattle.explain_at.specs.Words.{word_read, counted};
ghost use Rattle.explain_at.specs.Read.{IsWord};

use crate::fault::WordFault;
use crate::given::Given;
use crate::numeral::{are_digits, number_in};
use crate::part::cut_at;

/// The size that a word gives.
pub fn read_word<'a>(word: &'a str) -> Result<Given<'a>, WordFault<'a>>
    ensures { IsWord (word_read word.now) result }
{
    match cut_at(word, '=') {
        None => Err(WordFault::Shape(word)),
        Some((name, digits)) => counted(word, name, digits),
    }
}

// The size of this name, with the number of the digits.
fn counted<'a>(word: &'a str, name: &'a str, digits: &str) -> Result<Given<'a>, WordFault<'a>>
    ensures { IsWord (counted word.now name.now digits.now) result }
{
    if name.is_empty() || !are_digits(digits.as_bytes()) {
        return Err(WordFault::Shape(word));
    }
    match number_in(digits) {
        None => Err(WordFault::Long(word)),
        Some(number) => Ok(Given { name, number }),
    }
}
