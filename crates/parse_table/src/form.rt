// The forms of expressions, by the token that tells them.
ghost use Rattle.std.specs.Prelude.{◌≡◌, ℕ, IfSome};
ghost use Rattle.std.specs.Option.{option_map};
ghost use Rattle.parse_spec.specs.Reading.{starts_at, goes_at};
ghost use Rattle.parse_table.specs.Tokens.{Key};
ghost use Rattle.parse_table.specs.Table.{Types, Exprs, starts, goes, second_rule, grammar};
ghost use Rattle.parse_table.specs.Forms.{type_form, type_rule, suffix_rule, start_form, start_rule, infix_form, infix_rule, infix_level};
ghost use Rattle.parse_table.specs.Forms.{right_level};
ghost use Rattle.parse_table.specs.Read.{Finds, pieces, rest, token_of};

use crate::token::{Piece, Sign, Word};
use raml_syntax::{ArithOp, CompareOp};

/// A form that its first token may be all of.
#[derive(Clone, Copy)]
pub enum Simple<'a> {
    /// A variable, or a call where a parenthesis stands behind it.
    Name(&'a str),
    Number(i64),
    Truth(bool),
    Nil,
    Leaf,
    /// `none`.
    Nothing,
}

/// A form that has parts, by its first token.
#[derive(Clone, Copy)]
pub enum Compound {
    Node,
    /// `some`.
    Just,
    Not,
    Parens,
    Let,
    If,
    Match,
    Tick,
}

/// A form, by its first token.
#[derive(Clone, Copy)]
pub enum Start<'a> {
    Simple(Simple<'a>),
    Compound(Compound),
}

/// A form that goes on behind an expression, by its operator.
#[derive(Clone, Copy)]
pub enum Infix {
    Arith(ArithOp),
    Cons,
    Compare(CompareOp),
}

impl<'a> Start<'a> {
    // The form that a keyword or symbol begins.
    fn of_sign(sign: Sign) -> Option<Start<'a>>
        ensures { (p : ℕ) → starts Exprs (Key p sign) ≡ option_map start_form result }
    {
        match sign {
            Sign::True => Some(Start::Simple(Simple::Truth(true))),
            Sign::False => Some(Start::Simple(Simple::Truth(false))),
            Sign::Nil => Some(Start::Simple(Simple::Nil)),
            Sign::Leaf => Some(Start::Simple(Simple::Leaf)),
            Sign::Nothing => Some(Start::Simple(Simple::Nothing)),
            Sign::Node => Some(Start::Compound(Compound::Node)),
            Sign::Just => Some(Start::Compound(Compound::Just)),
            Sign::Not => Some(Start::Compound(Compound::Not)),
            Sign::Open => Some(Start::Compound(Compound::Parens)),
            Sign::Let => Some(Start::Compound(Compound::Let)),
            Sign::If => Some(Start::Compound(Compound::If)),
            Sign::Match => Some(Start::Compound(Compound::Match)),
            Sign::Tick => Some(Start::Compound(Compound::Tick)),
            _ => None,
        }
    }

    // The form that a token begins.
    fn of(token: &Piece<'a>) -> Option<Start<'a>>
        ensures { starts Exprs (token_of token.now) ≡ option_map start_form result }
    {
        match token.word {
            Word::Name(name) => Some(Start::Simple(Simple::Name(name))),
            Word::Number(value) if value <= i64::MAX as u64 => {
                Some(Start::Simple(Simple::Number(value as i64)))
            }
            Word::Number(_) => None,
            Word::Sign(sign) => Start::of_sign(sign),
        }
    }

    // Its level.
    fn level(self) -> u32
        ensures { result ≡ (start_form self.entry).0 }
    {
        match self {
            Start::Compound(Compound::Let | Compound::If | Compound::Match | Compound::Tick) => 4,
            Start::Compound(Compound::Node | Compound::Just | Compound::Not | Compound::Parens)
            | Start::Simple(_) => 0,
        }
    }

    /// The form of this level that begins here, and the tokens behind its first token.
    #[tactic(auto, unfolding(crate::specs::Table::grammar))]
    pub fn at(tokens: &'a [Piece<'a>], level: u32) -> Option<(Start<'a>, &'a [Piece<'a>])>
        ensures { Finds (λ x. start_rule x.0)
            (λ x. rest x.1) result (starts_at grammar Exprs level (pieces tokens.now)) (pieces tokens.now) }
    {
        let [first, rest @ ..] = tokens else {
            return None;
        };
        match Start::of(first) {
            Some(start) if start.level() == level => Some((start, rest)),
            _ => None,
        }
    }
}

impl Infix {
    // The form that goes on with a keyword or symbol.
    fn of_sign(sign: Sign) -> Option<Infix>
        ensures { (p : ℕ) → goes Exprs (Key p sign) ≡ option_map infix_form result }
    {
        match sign {
            Sign::Star => Some(Infix::Arith(ArithOp::Mul)),
            Sign::Div => Some(Infix::Arith(ArithOp::Div)),
            Sign::Mod => Some(Infix::Arith(ArithOp::Mod)),
            Sign::Plus => Some(Infix::Arith(ArithOp::Add)),
            Sign::Minus => Some(Infix::Arith(ArithOp::Sub)),
            Sign::Cons => Some(Infix::Cons),
            Sign::Equal => Some(Infix::Compare(CompareOp::Equal)),
            Sign::Less => Some(Infix::Compare(CompareOp::Less)),
            Sign::AtMost => Some(Infix::Compare(CompareOp::AtMost)),
            _ => None,
        }
    }

    // The form that goes on with a token.
    fn of(token: &Piece) -> Option<Infix>
        ensures { goes Exprs (token_of token.now) ≡ option_map infix_form result }
    {
        match token.word {
            Word::Name(_) | Word::Number(_) => None,
            Word::Sign(sign) => Infix::of_sign(sign),
        }
    }

    /// The level of what it goes on from: that of the form, less 1.
    pub fn level(self) -> u32
        ensures { result ≡ infix_level self }
    {
        match self {
            Infix::Arith(ArithOp::Mul | ArithOp::Div | ArithOp::Mod) => 0,
            Infix::Arith(ArithOp::Add | ArithOp::Sub) => 1,
            Infix::Cons => 2,
            Infix::Compare(_) => 3,
        }
    }

    /// The form that goes on here from this level, and the tokens behind its operator.
    #[tactic(auto, unfolding(crate::specs::Table::grammar))]
    pub fn at<'a>(tokens: &'a [Piece<'a>], level: u32) -> Option<(Infix, &'a [Piece<'a>])>
        ensures found { Finds (λ x. infix_rule x.0)
            (λ x. rest x.1) result (goes_at grammar Exprs level (pieces tokens.now)) (pieces tokens.now) }
        ensures level { IfSome result (λ x. infix_level x.0 ≡ level) }
    {
        let [first, rest @ ..] = tokens else {
            return None;
        };
        match Infix::of(first) {
            Some(infix) if infix.level() == level => Some((infix, rest)),
            _ => None,
        }
    }

    /// Whether such forms chain to the left.
    #[tactic(auto, unfolding(crate::specs::Table::grammar))]
    pub fn chains(self) -> bool
        ensures { result ≡ grammar.chains Exprs (infix_level self) }
    {
        matches!(self, Infix::Arith(_))
    }

    /// The level of its right operand.
    pub fn right_level(self) -> u32
        ensures { result ≡ right_level self }
    {
        match self {
            Infix::Arith(_) => self.level(),
            Infix::Cons | Infix::Compare(_) => 3,
        }
    }
}

/// What a type begins with.
#[derive(Clone, Copy)]
pub enum TypeStart {
    Int,
    Bool,
    Parens,
}

/// What a type goes on with.
#[derive(Clone, Copy)]
pub enum Suffix {
    List,
    Tree,
    Option,
}

impl TypeStart {
    // What a keyword or symbol begins.
    fn of_sign(sign: Sign) -> Option<TypeStart>
        ensures { (p : ℕ) → starts Types (Key p sign) ≡ option_map type_form result }
    {
        match sign {
            Sign::Int => Some(TypeStart::Int),
            Sign::Bool => Some(TypeStart::Bool),
            Sign::Open => Some(TypeStart::Parens),
            _ => None,
        }
    }

    // What a token begins.
    fn of(token: &Piece) -> Option<TypeStart>
        ensures { starts Types (token_of token.now) ≡ option_map type_form result }
    {
        match token.word {
            Word::Name(_) | Word::Number(_) => None,
            Word::Sign(sign) => TypeStart::of_sign(sign),
        }
    }

    /// The type that begins here, and the tokens behind its first token.
    #[tactic(auto, unfolding(crate::specs::Table::grammar))]
    pub fn at<'a>(tokens: &'a [Piece<'a>]) -> Option<(TypeStart, &'a [Piece<'a>])>
        ensures { Finds (λ x. type_rule x.0) (λ x. rest x.1) result (starts_at grammar Types 0 (pieces tokens.now)) (pieces tokens.now) }
    {
        let [first, rest @ ..] = tokens else {
            return None;
        };
        match TypeStart::of(first) {
            Some(start) => Some((start, rest)),
            None => None,
        }
    }
}

impl Suffix {
    /// The suffix that stands here, and the tokens behind it.
    #[tactic(auto, unfolding(crate::specs::Table::grammar))]
    pub fn at<'a>(tokens: &'a [Piece<'a>]) -> Option<(Suffix, &'a [Piece<'a>])>
        ensures { Finds (λ x. suffix_rule x.0) (λ x. rest x.1) result (goes_at grammar Types 0 (pieces tokens.now)) (pieces tokens.now) }
    {
        let [first, rest @ ..] = tokens else {
            return None;
        };
        match first.word {
            Word::Sign(Sign::List) => Some((Suffix::List, rest)),
            Word::Sign(Sign::Tree) => Some((Suffix::Tree, rest)),
            Word::Sign(Sign::Option) => Some((Suffix::Option, rest)),
            _ => None,
        }
    }
}

/// The tokens behind the `*` of a pair's type.
#[tactic(auto, unfolding(crate::specs::Table::grammar))]
pub fn star_at<'a>(tokens: &'a [Piece<'a>]) -> Option<&'a [Piece<'a>]>
    ensures { Finds (λ u. second_rule) rest result (goes_at grammar Types 1 (pieces tokens.now)) (pieces tokens.now) }
{
    match tokens {
        [
            Piece {
                word: Word::Sign(Sign::Star),
                ..
            },
            rest @ ..,
        ] => Some(rest),
        _ => None,
    }
}
