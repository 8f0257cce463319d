// Tokens that must stand.
ghost use Rattle.std.specs.Prelude.{◌≡◌, [], ◌∷◌, MatchOption};
ghost use Rattle.parse_spec.specs.Rules.{opening};
ghost use Rattle.parse_spec.specs.Reading.{take_of, taken};
ghost use Rattle.parse_table.specs.Table.{key, place, name, number_to, grammar, At, Counted};
ghost use Rattle.parse_table.specs.Read.{Gives, Finds, pieces, rest, named_part};

use crate::stop::Stop;
use crate::token::{Piece, Sign, Word};
use parse_spec::Kind;
use raml_syntax::Pos;

/// A name, and the place where it stands.
#[derive(Clone, Copy)]
pub struct NameAt<'a> {
    pub at: Pos,
    pub name: &'a str,
}

/// The place of the first token.
#[tactic(auto, unfolding(crate::specs::Table::grammar))]
pub fn first_place(tokens: &[Piece]) -> Option<Pos>
    ensures { MatchOption result (pieces tokens.now ≡ []) (λ at. opening grammar (pieces tokens.now) ≡ At at.0 ∷ []) }
{
    match tokens {
        [first, ..] => Some(first.at),
        [] => None,
    }
}

/// The tokens behind this keyword or symbol, where it stands first.
pub fn behind<'a>(tokens: &'a [Piece<'a>], sign: Sign) -> Option<&'a [Piece<'a>]>
    ensures { Finds (λ u. []) rest result (taken (key sign) (pieces tokens.now)) (pieces tokens.now) }
{
    match tokens {
        [first, rest @ ..] if first.is(sign) => Some(rest),
        _ => None,
    }
}

/// The place of this keyword or symbol, and the tokens behind it, where it stands first.
pub fn place_behind<'a>(tokens: &'a [Piece<'a>], sign: Sign) -> Option<(Pos, &'a [Piece<'a>])>
    ensures { Finds (λ x. At x.0.0 ∷ []) (λ x. rest x.1) result (taken (place sign) (pieces tokens.now)) (pieces tokens.now) }
{
    match tokens {
        [first, rest @ ..] if first.is(sign) => Some((first.at, rest)),
        _ => None,
    }
}

/// The tokens behind this keyword or symbol.
pub fn take_sign<'a>(tokens: &'a [Piece<'a>], sign: Sign) -> Result<&'a [Piece<'a>], Stop<'a>>
    ensures { Gives (λ u. ([], rest u)) result (take_of (key sign) (pieces tokens.now)) }
{
    behind(tokens, sign).ok_or(Stop::Fault(Kind::Syntax, tokens))
}

/// The place of this keyword or symbol, and the tokens behind it.
pub fn take_place<'a>(
    tokens: &'a [Piece<'a>],
    sign: Sign,
) -> Result<(Pos, &'a [Piece<'a>]), Stop<'a>>
    ensures { Gives (λ x. (At x.0.0 ∷ [], rest x.1)) result (take_of (place sign) (pieces tokens.now)) }
{
    place_behind(tokens, sign).ok_or(Stop::Fault(Kind::Syntax, tokens))
}

/// A name and its place, and the tokens behind it.
pub fn take_name<'a>(tokens: &'a [Piece<'a>]) -> Result<(NameAt<'a>, &'a [Piece<'a>]), Stop<'a>>
    ensures { Gives (λ x. (named_part x.0 ∷ [], rest x.1)) result (take_of name (pieces tokens.now)) }
{
    let [first, rest @ ..] = tokens else {
        return Err(Stop::Fault(Kind::Syntax, tokens));
    };
    match first.word {
        Word::Name(name) => Ok((NameAt { at: first.at, name }, rest)),
        _ => Err(Stop::Fault(Kind::Syntax, tokens)),
    }
}

/// A number of at most `most`, and the tokens behind it.
pub fn take_number<'a>(
    tokens: &'a [Piece<'a>],
    most: u32,
) -> Result<(u32, &'a [Piece<'a>]), Stop<'a>>
    ensures { Gives (λ x. (Counted x.0 ∷ [], rest x.1)) result (take_of (number_to most) (pieces tokens.now)) }
{
    let [first, rest @ ..] = tokens else {
        return Err(Stop::Fault(Kind::Syntax, tokens));
    };
    match first.word {
        Word::Number(value) if value <= u64::from(most) => Ok((value as u32, rest)),
        _ => Err(Stop::Fault(Kind::Syntax, tokens)),
    }
}
