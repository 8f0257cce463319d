// The constructs of the language.
ghost use Rattle.std.specs.Prelude.{◌≡◌, ◌<◌};
ghost use Rattle.price_file.specs.Construct.{name_of, place};
ghost use Rattle.price_file.specs.Reading.{named};

/// A construct of the language, which may have a price.
#[derive(Clone, Copy, PartialEq, Eq, Debug)]
pub enum Construct {
    Number,
    Truth,
    Var,
    Nil,
    Leaf,
    /// `none`.
    Nothing,
    /// An arithmetic operator.
    Arith,
    /// A comparison of integers.
    Compare,
    Not,
    Pair,
    /// `::`.
    Cons,
    Node,
    /// `some` of a value.
    Just,
    Call,
    /// `let` of a variable, and of the parts of a pair.
    Let,
    If,
    /// `match` of a list, of a tree and of an option.
    Match,
    Tick,
}

impl Construct {
    /// All constructs.
    pub const ALL: [Construct; 18] = [
        Construct::Number,
        Construct::Truth,
        Construct::Var,
        Construct::Nil,
        Construct::Leaf,
        Construct::Nothing,
        Construct::Arith,
        Construct::Compare,
        Construct::Not,
        Construct::Pair,
        Construct::Cons,
        Construct::Node,
        Construct::Just,
        Construct::Call,
        Construct::Let,
        Construct::If,
        Construct::Match,
        Construct::Tick,
    ];

    /// The name in a table of prices.
    pub fn name(self) -> &'static str
        ensures { result.now ≡ name_of self }
    {
        match self {
            Construct::Number => "number",
            Construct::Truth => "truth",
            Construct::Var => "var",
            Construct::Nil => "nil",
            Construct::Leaf => "leaf",
            Construct::Nothing => "none",
            Construct::Arith => "arith",
            Construct::Compare => "compare",
            Construct::Not => "not",
            Construct::Pair => "pair",
            Construct::Cons => "cons",
            Construct::Node => "node",
            Construct::Just => "some",
            Construct::Call => "call",
            Construct::Let => "let",
            Construct::If => "if",
            Construct::Match => "match",
            Construct::Tick => "tick",
        }
    }

    /// The construct of this name.
    pub fn named(word: &str) -> Option<Construct>
        ensures { result ≡ named word.now }
    {
        for construct in &Construct::ALL {
            if construct.name() == word {
                return Some(*construct);
            }
        }
        None
    }

    /// The place among all constructs, from 0.
    pub fn place(self) -> usize
        ensures place { result ≡ place self }
        ensures within { result < 18 }
    {
        self as usize
    }
}
