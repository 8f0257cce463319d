// Types from tokens.
ghost use Rattle.std.specs.Prelude.{◌≡◌, ◌≤◌, ◌<◌, ◌^◌, suc, [], ◌∷◌, IfOk};
ghost use Rattle.parse_spec.specs.Reading.{read};
ghost use Rattle.raml_syntax.specs.Read.{ty_of};
ghost use Rattle.parse_table.specs.Table.{grammar, Types, type_level, Typing};
ghost use Rattle.parse_table.specs.Forms.{suffix_act};
ghost use Rattle.parse_table.specs.Steps.{base_of, goes_on, postfix_of, second_of, product_of};
ghost use Rattle.parse_table.specs.Read.{Gives, pieces, typing};

use crate::form::{Suffix, TypeStart, star_at};
use crate::stop::Stop;
use crate::take::take_sign;
use crate::token::{Piece, Sign};
use parse_spec::Kind;
use raml_syntax::Ty;
use std::alloc::{AllocError, Global};

/// A type, its height, and the tokens behind it.
pub type FoundType<'a> = Result<(Box<Ty>, u32, &'a [Piece<'a>]), Stop<'a>>;

/// A type of height `depth` at most.
#[cycle(ty)]
pub fn parse_type<'a>(alloc: Global, depth: u32, tokens: &'a [Piece<'a>]) -> FoundType<'a>
    requires { depth < 2 ^ 30 }
    ensures same { Gives typing result (read grammar 0 depth Types type_level (pieces tokens.now)) }
    ensures low { IfOk result (λ x. x.1 ≤ depth) }
{
    if depth == 0 {
        return Err(Stop::Fault(Kind::TooDeep, tokens));
    }
    parse_product(alloc, depth - 1, tokens)
}

// A type with parts of height `depth` at most.
#[cycle(ty)]
fn parse_product<'a>(alloc: Global, depth: u32, tokens: &'a [Piece<'a>]) -> FoundType<'a>
    requires { suc depth < 2 ^ 30 }
    ensures same { Gives typing result (product_of depth (pieces tokens.now)) }
    ensures low { IfOk result (λ x. x.1 ≤ suc depth) }
{
    let (first, height, rest) = parse_postfix(alloc, depth, tokens)?;
    parse_second(alloc, depth, first, height, rest)
}

// The second type of a pair, where one stands behind the first.
#[cycle(ty)]
fn parse_second<'a>(
    alloc: Global,
    depth: u32,
    first: Box<Ty>,
    height: u32,
    tokens: &'a [Piece<'a>],
) -> FoundType<'a>
    requires shallow { suc depth < 2 ^ 30 }
    requires high { height ≤ suc depth }
    ensures same { Gives typing result (second_of depth (Typing (ty_of first.value)) height (pieces tokens.now)) }
    ensures low { IfOk result (λ x. x.1 ≤ suc depth) }
{
    let Some(rest) = star_at(tokens) else {
        return Ok((first, height, tokens));
    };
    if height > depth {
        return Err(Stop::Fault(Kind::TooDeep, tokens));
    }
    let (second, second_height, rest) = parse_type(alloc, depth, rest)?;
    let pair = Box::new(alloc, Ty::Pair(first, second))?;
    Ok((pair, 1 + height.max(second_height), rest))
}

// A type without `*` outside of parentheses.
#[cycle(ty)]
fn parse_postfix<'a>(alloc: Global, depth: u32, tokens: &'a [Piece<'a>]) -> FoundType<'a>
    requires { suc depth < 2 ^ 30 }
    ensures same { Gives typing result (postfix_of depth (pieces tokens.now)) }
    ensures low { IfOk result (λ x. x.1 ≤ suc depth) }
{
    let (base, height, rest) = parse_base(alloc, depth, tokens)?;
    parse_suffixes(alloc, depth, base, height, rest)
}

// A type that is one token or stands in parentheses.
#[cycle(ty)]
fn parse_base<'a>(alloc: Global, depth: u32, tokens: &'a [Piece<'a>]) -> FoundType<'a>
    requires { suc depth < 2 ^ 30 }
    ensures same { Gives typing result (base_of depth (pieces tokens.now)) }
    ensures low { IfOk result (λ x. x.1 ≤ suc depth) }
{
    match TypeStart::at(tokens) {
        None => Err(Stop::Fault(Kind::Syntax, tokens)),
        Some((TypeStart::Int, rest)) => Ok((Box::new(alloc, Ty::Int)?, 1, rest)),
        Some((TypeStart::Bool, rest)) => Ok((Box::new(alloc, Ty::Bool)?, 1, rest)),
        Some((TypeStart::Parens, _)) if depth == 0 => Err(Stop::Fault(Kind::TooDeep, tokens)),
        Some((TypeStart::Parens, rest)) => {
            let (inner, height, rest) = parse_type(alloc, depth, rest)?;
            let rest = take_sign(rest, Sign::Close)?;
            Ok((inner, 1 + height, rest))
        }
    }
}

// The type with what stands behind it of `list`, `tree` and `option`.
#[cycle(suffixes)]
fn parse_suffixes<'a>(
    alloc: Global,
    depth: u32,
    base: Box<Ty>,
    height: u32,
    tokens: &'a [Piece<'a>],
) -> FoundType<'a>
    requires shallow { suc depth < 2 ^ 30 }
    requires high { height ≤ suc depth }
    ensures same { Gives typing result (goes_on Types depth 0 [] (Typing (ty_of base.value)) height (pieces tokens.now)) }
    ensures low { IfOk result (λ x. x.1 ≤ suc depth) }
{
    let Some((suffix, rest)) = Suffix::at(tokens) else {
        return Ok((base, height, tokens));
    };
    if height > depth {
        return Err(Stop::Fault(Kind::TooDeep, tokens));
    }
    let longer = with_suffix(alloc, base, suffix)?;
    parse_suffixes(alloc, depth, longer, 1 + height, rest)
}

fn with_suffix(alloc: Global, base: Box<Ty>, suffix: Suffix) -> Result<Box<Ty>, AllocError>
    ensures { IfOk result (λ a. suffix_act suffix (Typing (ty_of base.value) ∷ []) ≡ Typing (ty_of a.value)) }
{
    let ty = match suffix {
        Suffix::List => Ty::List(base),
        Suffix::Tree => Ty::Tree(base),
        Suffix::Option => Ty::Opt(base),
    };
    Ok(Box::new(alloc, ty)?)
}
