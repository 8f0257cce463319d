// Tokens as the grammar sees them.
ghost use Rattle.std.specs.Prelude.{◌≡◌};
ghost use Rattle.parse_table.specs.Tokens.{sign_of, word_of, symbol_of, is_key};
ghost use Rattle.parse_table.specs.Read.{token_of};

use raml_syntax::Pos;

/// A keyword or a symbol.
#[derive(Clone, Copy, PartialEq, Eq)]
pub enum Sign {
    Fun,
    Let,
    In,
    If,
    Then,
    Else,
    Match,
    With,
    Nil,
    Leaf,
    Node,
    /// `none`.
    Nothing,
    /// `some`.
    Just,
    True,
    False,
    Not,
    Tick,
    Div,
    Mod,
    Int,
    Bool,
    List,
    Tree,
    Option,
    Open,
    Close,
    Comma,
    Colon,
    Cons,
    Equal,
    Less,
    AtMost,
    Plus,
    Minus,
    Star,
    Arrow,
    Bar,
}

/// What a token is. A name is lent by the text.
#[derive(Clone, Copy)]
pub enum Word<'a> {
    Name(&'a str),
    Number(u64),
    Sign(Sign),
}

/// A token and the place where it begins.
#[derive(Clone, Copy)]
pub struct Piece<'a> {
    pub at: Pos,
    pub word: Word<'a>,
}

impl<'a> Piece<'a> {
    /// Whether it is this keyword or symbol.
    pub fn is(&self, sign: Sign) -> bool
        ensures { result ≡ is_key sign (token_of self.now) }
    {
        matches!(self.word, Word::Sign(found) if found == sign)
    }
}

/// The keyword or symbol that a word spells. Most are symbols or types, which are told by their bytes.
pub fn sign_named(word: &str) -> Sign
    ensures { result ≡ sign_of word.now }
{
    match word.as_bytes() {
        [b'('] => Sign::Open,
        [b')'] => Sign::Close,
        [b','] => Sign::Comma,
        [b':'] => Sign::Colon,
        [b'='] => Sign::Equal,
        [b'|'] => Sign::Bar,
        [b':', b':'] => Sign::Cons,
        [b'-', b'>'] => Sign::Arrow,
        [b'i', b'n', b't'] => Sign::Int,
        [b'l', b'i', b's', b't'] => Sign::List,
        _ => sign_by_name(word),
    }
}

// The same by one look after the other.
fn sign_by_name(word: &str) -> Sign
    ensures { result ≡ sign_of word.now }
{
    match word {
        "fun" => Sign::Fun,
        "let" => Sign::Let,
        "in" => Sign::In,
        "if" => Sign::If,
        "then" => Sign::Then,
        "else" => Sign::Else,
        "match" => Sign::Match,
        "with" => Sign::With,
        "nil" => Sign::Nil,
        "leaf" => Sign::Leaf,
        "node" => Sign::Node,
        "none" => Sign::Nothing,
        "some" => Sign::Just,
        _ => word_named(word),
    }
}

// The keyword of a value, an operator or a type, or the symbol.
fn word_named(word: &str) -> Sign
    ensures { result ≡ word_of word.now }
{
    match word {
        "true" => Sign::True,
        "false" => Sign::False,
        "not" => Sign::Not,
        "tick" => Sign::Tick,
        "div" => Sign::Div,
        "mod" => Sign::Mod,
        "int" => Sign::Int,
        "bool" => Sign::Bool,
        "list" => Sign::List,
        "tree" => Sign::Tree,
        "option" => Sign::Option,
        _ => symbol_named(word),
    }
}

// The symbol.
fn symbol_named(word: &str) -> Sign
    ensures { result ≡ symbol_of word.now }
{
    match word {
        "(" => Sign::Open,
        ")" => Sign::Close,
        "," => Sign::Comma,
        ":" => Sign::Colon,
        "::" => Sign::Cons,
        "=" => Sign::Equal,
        "<" => Sign::Less,
        "<=" => Sign::AtMost,
        "+" => Sign::Plus,
        "-" => Sign::Minus,
        "*" => Sign::Star,
        "->" => Sign::Arrow,
        _ => Sign::Bar,
    }
}
