// Tokens that must stand one behind the other.
ghost use Rattle.std.specs.Prelude.{[], ◌∷◌};
ghost use Rattle.parse_table.specs.Fronts.{two_signs, name_then, pair_front, list_front, open_front, last_front, option_front, tree_front};
ghost use Rattle.parse_table.specs.Read.{Gives, pieces, rest, named_part};

use crate::stop::Stop;
use crate::take::{NameAt, take_name, take_sign};
use crate::token::{Piece, Sign};

/// A name, and the tokens behind what was taken.
pub type OneName<'a> = Result<(NameAt<'a>, &'a [Piece<'a>]), Stop<'a>>;

/// Two names, in order, and the tokens behind what was taken.
pub type TwoNames<'a> = Result<(NameAt<'a>, NameAt<'a>, &'a [Piece<'a>]), Stop<'a>>;

/// Three names, in order, and the tokens behind what was taken.
pub type ThreeNames<'a> = Result<(NameAt<'a>, NameAt<'a>, NameAt<'a>, &'a [Piece<'a>]), Stop<'a>>;

// The tokens behind these two keywords or symbols.
fn take_two<'a>(
    tokens: &'a [Piece<'a>],
    first: Sign,
    second: Sign,
) -> Result<&'a [Piece<'a>], Stop<'a>>
    ensures { Gives (λ u. ([], rest u)) result (two_signs first second (pieces tokens.now)) }
{
    let rest = take_sign(tokens, first)?;
    let rest = take_sign(rest, second)?;
    Ok(rest)
}

/// A name with this keyword or symbol behind it.
pub fn take_name_then<'a>(tokens: &'a [Piece<'a>], sign: Sign) -> OneName<'a>
    ensures { Gives (λ x. (named_part x.0 ∷ [], rest x.1)) result (name_then sign (pieces tokens.now)) }
{
    let (name, rest) = take_name(tokens)?;
    let rest = take_sign(rest, sign)?;
    Ok((name, rest))
}

/// The two names of a `let`, of which the `(` is taken, up to the `=`.
pub fn take_pair<'a>(tokens: &'a [Piece<'a>]) -> TwoNames<'a>
    ensures { Gives (λ x. (named_part x.1 ∷ named_part x.0 ∷ [], rest x.2)) result (pair_front (pieces tokens.now)) }
{
    let (x, rest) = take_name_then(tokens, Sign::Comma)?;
    let (y, rest) = take_name_then(rest, Sign::Close)?;
    let rest = take_sign(rest, Sign::Equal)?;
    Ok((x, y, rest))
}

/// The names of a list's head and tail, from the `|` up to the `->`.
pub fn take_list<'a>(tokens: &'a [Piece<'a>]) -> TwoNames<'a>
    ensures { Gives (λ x. (named_part x.1 ∷ named_part x.0 ∷ [], rest x.2)) result (list_front (pieces tokens.now)) }
{
    let rest = take_sign(tokens, Sign::Bar)?;
    let (head, rest) = take_name_then(rest, Sign::Cons)?;
    let (tail, rest) = take_name_then(rest, Sign::Arrow)?;
    Ok((head, tail, rest))
}

// The tokens behind a `|`, this keyword and a `(`.
fn take_open<'a>(tokens: &'a [Piece<'a>], sign: Sign) -> Result<&'a [Piece<'a>], Stop<'a>>
    ensures { Gives (λ u. ([], rest u)) result (open_front sign (pieces tokens.now)) }
{
    let rest = take_two(tokens, Sign::Bar, sign)?;
    let rest = take_sign(rest, Sign::Open)?;
    Ok(rest)
}

// The last name of a pattern, up to the `->`.
fn take_last<'a>(tokens: &'a [Piece<'a>]) -> OneName<'a>
    ensures { Gives (λ x. (named_part x.0 ∷ [], rest x.1)) result (last_front (pieces tokens.now)) }
{
    let (name, rest) = take_name_then(tokens, Sign::Close)?;
    let rest = take_sign(rest, Sign::Arrow)?;
    Ok((name, rest))
}

/// The name of an option's content, from the `|` up to the `->`.
pub fn take_option<'a>(tokens: &'a [Piece<'a>]) -> OneName<'a>
    ensures { Gives (λ x. (named_part x.0 ∷ [], rest x.1)) result (option_front (pieces tokens.now)) }
{
    let rest = take_open(tokens, Sign::Just)?;
    let (content, rest) = take_last(rest)?;
    Ok((content, rest))
}

/// The names of a tree's element and its two trees, from the `|` up to the `->`.
pub fn take_tree<'a>(tokens: &'a [Piece<'a>]) -> ThreeNames<'a>
    ensures { Gives (λ x. (named_part x.2 ∷ named_part x.1 ∷ named_part x.0 ∷ [], rest x.3)) result (tree_front (pieces tokens.now)) }
{
    let rest = take_open(tokens, Sign::Node)?;
    let (element, rest) = take_name_then(rest, Sign::Comma)?;
    let (left, rest) = take_name_then(rest, Sign::Comma)?;
    let (right, rest) = take_last(rest)?;
    Ok((element, left, right, rest))
}
