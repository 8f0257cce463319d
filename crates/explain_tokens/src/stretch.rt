// Stretches of a source.
ghost use Rattle.std.specs.Prelude.{◌≡◌, take, drop};

use raml_lex::Token;

/// Bytes of a source, from one on and before another.
#[derive(Clone, Copy, PartialEq, Eq, Debug)]
pub struct Stretch {
    pub from: usize,
    pub to: usize,
}

/// The source from a byte on.
pub fn starting(source: &[u8], from: usize) -> &[u8]
    ensures { result.now ≡ drop from source.now }
{
    &source[from.min(source.len())..]
}

/// The source before a byte.
pub fn ending_at(source: &[u8], to: usize) -> &[u8]
    ensures { result.now ≡ take to source.now }
{
    &source[..to.min(source.len())]
}

/// The bytes of a token of the source.
pub fn word<'s>(source: &'s [u8], token: &Token) -> &'s [u8]
    ensures { result.now ≡ drop token.now.at.0 (take token.now.end.0 source.now) }
{
    let begun = ending_at(source, token.end.0 as usize);
    starting(begun, token.at.0 as usize)
}
