// What to write in place of a typical mistake.

/// What to write in place of a typical mistake.
#[derive(Clone, Copy, PartialEq, Eq, Debug)]
pub enum Hint {
    Sign(SignHint),
    Bits(BitHint),
    Word(WordHint),
    Form(FormHint),
    Case(CaseHint),
    Pair(PairHint),
    Type(TypeHint),
}

impl Hint {
    /// The hint in words: one line of ASCII. Pieces of source stand between backquotes.
    pub fn text(self) -> &'static str {
        match self {
            Hint::Sign(hint) => hint.text(),
            Hint::Bits(hint) => hint.text(),
            Hint::Word(hint) => hint.text(),
            Hint::Form(hint) => hint.text(),
            Hint::Case(hint) => hint.text(),
            Hint::Pair(hint) => hint.text(),
            Hint::Type(hint) => hint.text(),
        }
    }
}

/// Signs of other languages.
#[derive(Clone, Copy, PartialEq, Eq, Debug)]
pub enum SignHint {
    Brackets,
    Greater,
    AtLeast,
    Unequal,
    Equal,
    Chain,
    Minus,
    Division,
    Remainder,
    Append,
    Assignment,
    Semicolon,
    Comment,
}

impl SignHint {
    fn text(self) -> &'static str {
        match self {
            SignHint::Brackets => "write `x :: nil` for `[x]`, and `nil` for `[]`",
            SignHint::Greater => "write `b < a` for `a > b`",
            SignHint::AtLeast => "write `b <= a` for `a >= b`",
            SignHint::Unequal => "write `not (a = b)` for `a <> b`",
            SignHint::Equal => "write `a = b` for `a == b`",
            SignHint::Chain => "write `if a < b then b < c else false` for `a < b < c`",
            SignHint::Minus => "write `0 - 1` for `-1`",
            SignHint::Division => "write `a div b` for `a / b`",
            SignHint::Remainder => "write `a mod b` for `a % b`",
            SignHint::Append => "write a function that appends one list to another",
            SignHint::Assignment => "a variable keeps its value: write `let x = a in b`",
            SignHint::Semicolon => "a `let` ends with `in`: write `let x = a in b`",
            SignHint::Comment => "a comment is written `(* .. *)`",
        }
    }
}

/// Operators on bits, which there are none of, and numbers in other bases.
#[derive(Clone, Copy, PartialEq, Eq, Debug)]
pub enum BitHint {
    And,
    Or,
    Xor,
    Not,
    Shift,
    Decimal,
}

impl BitHint {
    fn text(self) -> &'static str {
        match self {
            BitHint::And => {
                "there are no operators on bits: `a mod 256` is `a & 255` where `a` is not below 0"
            }
            BitHint::Or => {
                "there are no operators on bits: an or goes bit by bit, by `mod 2` and `div 2`"
            }
            BitHint::Xor => {
                "there are no operators on bits: an exclusive or goes bit by bit, by `mod 2` and `div 2`"
            }
            BitHint::Not => {
                "there are no operators on bits: write `0 - a - 1` for `~a`, and `0 - a` for a minus"
            }
            BitHint::Shift => {
                "there are no operators on bits: write `a div 2` for `a >> 1`, and `a * 2` for `a << 1`"
            }
            BitHint::Decimal => "numbers are decimal: write `255` for `0xff`",
        }
    }
}

/// Words of other languages.
#[derive(Clone, Copy, PartialEq, Eq, Debug)]
pub enum WordHint {
    And,
    Or,
    Not,
    Capital,
    Underscore,
    Keyword,
    Letters,
    Fraction,
    LeastNumber,
    End,
    ElseIf,
    Ascii,
}

impl WordHint {
    fn text(self) -> &'static str {
        match self {
            WordHint::And => "write `if a then b else false` for `a and b`",
            WordHint::Or => "write `if a then true else b` for `a or b`",
            WordHint::Not => "write `not a` for `!a`",
            WordHint::Capital => "names and keywords begin with a small letter",
            WordHint::Underscore => {
                "a name begins with a small letter: write one also for what is not used"
            }
            WordHint::Keyword => "this is a keyword: take another name",
            WordHint::Letters => "there are no texts: write numbers, or a list of numbers",
            WordHint::Fraction => "numbers are whole",
            WordHint::LeastNumber => "the least number is `0 - 9223372036854775807 - 1`",
            WordHint::End => "nothing ends a `let`, an `if` or a `match`: leave it out",
            WordHint::ElseIf => "write `else if`",
            WordHint::Ascii => "a program is written in ASCII, but for its comments",
        }
    }
}

/// Functions, calls and the forms of expressions.
#[derive(Clone, Copy, PartialEq, Eq, Debug)]
pub enum FormHint {
    Function,
    Inner,
    NoValue,
    Recursion,
    NoParameter,
    NoArgument,
    NoUnit,
    Application,
    LetIn,
    TickIn,
    TickNumber,
    Else,
    Parentheses,
    Library,
}

impl FormHint {
    fn text(self) -> &'static str {
        match self {
            FormHint::Function => "a function is written `fun f(x : int, y : bool) : int = e`",
            FormHint::Inner => "functions stand outside of each other: `fun f(x : int) : int = e`",
            FormHint::NoValue => "functions are no values: `fun f(x : int) : int = e` names one",
            FormHint::Recursion => "leave `rec` out: each function may call itself and the others",
            FormHint::NoParameter => {
                "a function has at least one parameter: `fun f(x : int) : int = e`"
            }
            FormHint::NoArgument => "a call has at least one argument",
            FormHint::NoUnit => "there is no `()`: write a value, such as `0`",
            FormHint::Application => "arguments stand in parentheses: write `f(x, y)` for `f x y`",
            FormHint::LetIn => "a `let` ends with `in`: write `let x = a in b`",
            FormHint::TickIn => "write `tick 1 in x`",
            FormHint::TickNumber => "write a number up to 1000000, as in `tick 1 in x`",
            FormHint::Else => "each `if` has its `else`: write `if c then a else b`",
            FormHint::Parentheses => "put it in parentheses: `1 + (if c then a else b)`",
            FormHint::Library => "there is no library: each function stands in the file",
        }
    }
}

/// The cases of a `match`.
#[derive(Clone, Copy, PartialEq, Eq, Debug)]
pub enum CaseHint {
    NilFirst,
    LeafFirst,
    NoneFirst,
    NoBar,
    Two,
    Subject,
    Arrow,
    Nested,
    Apart,
}

impl CaseHint {
    fn text(self) -> &'static str {
        match self {
            CaseHint::NilFirst => "`nil` comes first: `match l with nil -> a | x :: y -> b`",
            CaseHint::LeafFirst => {
                "`leaf` comes first: `match t with leaf -> a | node(x, y, z) -> b`"
            }
            CaseHint::NoneFirst => "`none` comes first: `match o with none -> a | some(x) -> b`",
            CaseHint::NoBar => "no `|` stands before the first case",
            CaseHint::Two => {
                "a match has two cases: `nil -> a | x :: y -> b`, `leaf -> a | node(x, y, z) -> b` or `none -> a | some(x) -> b`"
            }
            CaseHint::Subject => {
                "a match takes a list, a tree or an option apart; a pair: `let (x, y) = p in a`; a number: `if`"
            }
            CaseHint::Arrow => "a case is written `nil -> a`",
            CaseHint::Nested => {
                "patterns do not nest: name the part, and take it apart in what follows"
            }
            CaseHint::Apart => "take a list apart: `match l with nil -> a | x :: y -> b`",
        }
    }
}

/// Pairs, which have two parts.
#[derive(Clone, Copy, PartialEq, Eq, Debug)]
pub enum PairHint {
    Names,
    Values,
    Parentheses,
    Parameters,
    Apart,
}

impl PairHint {
    fn text(self) -> &'static str {
        match self {
            PairHint::Names => "pairs nest: write `let (x, p) = a in let (y, z) = p in b`",
            PairHint::Values => "pairs nest: write `(x, (y, z))` for `(x, y, z)`",
            PairHint::Parentheses => "a pair stands in parentheses: `(x, y)`",
            PairHint::Parameters => "put several values into a pair: `(x, (y, z))`",
            PairHint::Apart => "take a pair apart: `let (x, y) = p in a`",
        }
    }
}

/// Types.
#[derive(Clone, Copy, PartialEq, Eq, Debug)]
pub enum TypeHint {
    Parameter,
    Result,
    Let,
    Names,
    Order,
    Empty,
    Numbers,
}

impl TypeHint {
    fn text(self) -> &'static str {
        match self {
            TypeHint::Parameter => "each parameter has its type, as in `fun f(x : int) : int = e`",
            TypeHint::Result => "the result has its type, as in `fun f(x : int) : int = e`",
            TypeHint::Let => "write `let x = (a : int) in b` for `let x : int = a in b`",
            TypeHint::Names => {
                "the types are `int`, `bool`, `A * B`, `A list`, `A tree` and `A option`"
            }
            TypeHint::Order => "write `int list` for `list int`",
            TypeHint::Empty => "write its type, as in `(nil : int list)`",
            TypeHint::Numbers => "`=`, `<` and `<=` compare numbers alone",
        }
    }
}
