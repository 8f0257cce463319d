// What may come in a program, and what comes behind it.
use crate::word::Word;

/// What is to come in a program.
#[derive(Clone, Copy, PartialEq, Eq)]
pub enum Need {
    Fun,
    Open,
    Close,
    /// The `)` of a pair.
    PairClose,
    /// The `)` behind the two names of a `let`.
    LetClose,
    /// The `:` of a parameter.
    Colon,
    /// The `:` of a function's result.
    ResultColon,
    Equal,
    In,
    Then,
    Else,
    With,
    Arrow,
    Bar,
    Cons,
    Comma,
    Node,
    Just,
    FunctionName,
    ParameterName,
    Name,
    /// A name or a `(` behind `let`.
    Binding,
    Number,
    Type,
    /// The first case of a `match`.
    Cases,
    Expression,
    /// An expression that begins with no `let`, `if`, `match` or `tick`.
    Operand,
    /// What stands behind the first expression in parentheses.
    Closing,
    /// More functions, or none; and so on.
    MoreFunctions,
    MoreParameters,
    MoreArguments,
    MoreType,
    MoreExpression,
    /// The arguments behind a name, or none.
    Call,
}

/// What comes behind a token, the first need first.
pub type Rest = Option<&'static [Need]>;

impl Need {
    /// What comes behind the token in place of this need; `None` where the token does not meet it.
    pub fn behind(self, word: Word) -> Rest {
        match self {
            Need::FunctionName | Need::ParameterName | Need::Name => when(word.is_name(), &[]),
            Need::Number => when(word.is_number(), &[]),
            Need::Binding => binding(word),
            Need::Type => type_begun(word),
            Need::Cases => cases(word),
            Need::Expression => form(word).or(operand(word)),
            Need::Operand => operand(word),
            Need::Closing => closing(word),
            Need::MoreFunctions => when(word.text == "fun", &FUNCTION),
            Need::MoreParameters => when(word.text == ",", &PARAMETER),
            Need::MoreArguments => when(word.text == ",", &ARGUMENT),
            Need::MoreType => type_continued(word),
            Need::MoreExpression => when(is_operator(word), &OPERAND),
            Need::Call => when(word.text == "(", &ARGUMENTS),
            _ => when(word.text == self.sign(), &[]),
        }
    }

    /// Whether nothing may come in its place.
    pub fn is_optional(self) -> bool {
        matches!(
            self,
            Need::MoreFunctions
                | Need::MoreParameters
                | Need::MoreArguments
                | Need::MoreType
                | Need::MoreExpression
                | Need::Call
        )
    }

    /// Whether it stands behind the end of an operand, which it goes on from.
    pub fn continues(self) -> bool {
        matches!(self, Need::MoreExpression | Need::Call)
    }

    // The keyword or symbol that it is.
    fn sign(self) -> &'static str {
        match self {
            Need::Fun => "fun",
            Need::Open => "(",
            Need::Close | Need::PairClose | Need::LetClose | Need::Closing => ")",
            Need::Colon | Need::ResultColon => ":",
            Need::Equal => "=",
            Need::In => "in",
            Need::Then => "then",
            Need::Else => "else",
            Need::With => "with",
            Need::Arrow => "->",
            Need::Bar => "|",
            Need::Cons => "::",
            Need::Comma => ",",
            Need::Node => "node",
            Need::Just => "some",
            _ => "",
        }
    }

    /// What it is, in words.
    pub fn words(self) -> &'static str {
        match self {
            Need::FunctionName => "the name of a function",
            Need::ParameterName => "the name of a parameter",
            Need::Name | Need::Binding => "a name",
            Need::Number => "a number up to 1000000",
            Need::Type => "a type",
            Need::Cases => "'nil', 'leaf' or 'none'",
            Need::Expression | Need::Operand => "an expression",
            Need::Fun => "'fun'",
            Need::Open => "'('",
            Need::Close | Need::PairClose | Need::LetClose | Need::Closing => "')'",
            Need::Colon | Need::ResultColon => "':'",
            Need::Equal => "'='",
            Need::In => "'in'",
            Need::Then => "'then'",
            Need::Else => "'else'",
            Need::With => "'with'",
            Need::Arrow => "'->'",
            Need::Bar => "'|'",
            Need::Cons => "'::'",
            Need::Comma => "','",
            Need::Node => "'node'",
            Need::Just => "'some'",
            _ => "'fun' or the end of the source",
        }
    }
}

static PARAMETER: [Need; 4] = [
    Need::ParameterName,
    Need::Colon,
    Need::Type,
    Need::MoreParameters,
];

/// A function behind its `fun`, and those that follow.
pub static FUNCTION: [Need; 12] = [
    Need::FunctionName,
    Need::Open,
    Need::ParameterName,
    Need::Colon,
    Need::Type,
    Need::MoreParameters,
    Need::Close,
    Need::ResultColon,
    Need::Type,
    Need::Equal,
    Need::Expression,
    Need::MoreFunctions,
];

static ARGUMENT: [Need; 2] = [Need::Expression, Need::MoreArguments];

static ARGUMENTS: [Need; 3] = [Need::Expression, Need::MoreArguments, Need::Close];

static OPERAND: [Need; 2] = [Need::Operand, Need::MoreExpression];

// What comes behind a token that must be so.
fn when(fits: bool, rest: &'static [Need]) -> Rest {
    if fits { Some(rest) } else { None }
}

// Behind `let`: one name or two.
fn binding(word: Word) -> Rest {
    match word.text {
        "(" => Some(&[
            Need::Name,
            Need::Comma,
            Need::Name,
            Need::LetClose,
            Need::Equal,
            Need::Expression,
            Need::In,
            Need::Expression,
        ]),
        _ => when(
            word.is_name(),
            &[Need::Equal, Need::Expression, Need::In, Need::Expression],
        ),
    }
}

fn type_begun(word: Word) -> Rest {
    match word.text {
        "int" | "bool" => Some(&[Need::MoreType]),
        "(" => Some(&[Need::Type, Need::Close, Need::MoreType]),
        _ => None,
    }
}

fn type_continued(word: Word) -> Rest {
    match word.text {
        "list" | "tree" | "option" => Some(&[Need::MoreType]),
        "*" => Some(&[Need::Type]),
        _ => None,
    }
}

// Behind `with`.
fn cases(word: Word) -> Rest {
    match word.text {
        "nil" => Some(&[
            Need::Arrow,
            Need::Expression,
            Need::Bar,
            Need::Name,
            Need::Cons,
            Need::Name,
            Need::Arrow,
            Need::Expression,
        ]),
        "none" => Some(&[
            Need::Arrow,
            Need::Expression,
            Need::Bar,
            Need::Just,
            Need::Open,
            Need::Name,
            Need::Close,
            Need::Arrow,
            Need::Expression,
        ]),
        _ => tree_cases(word),
    }
}

fn tree_cases(word: Word) -> Rest {
    when(
        word.text == "leaf",
        &[
            Need::Arrow,
            Need::Expression,
            Need::Bar,
            Need::Node,
            Need::Open,
            Need::Name,
            Need::Comma,
            Need::Name,
            Need::Comma,
            Need::Name,
            Need::Close,
            Need::Arrow,
            Need::Expression,
        ],
    )
}

// A form that is no operand.
fn form(word: Word) -> Rest {
    match word.text {
        "let" => Some(&[Need::Binding]),
        "if" => Some(&[
            Need::Expression,
            Need::Then,
            Need::Expression,
            Need::Else,
            Need::Expression,
        ]),
        "match" => Some(&[Need::Expression, Need::With, Need::Cases]),
        "tick" => Some(&[Need::Number, Need::In, Need::Expression]),
        _ => None,
    }
}

/// Whether the token begins a form that is no operand.
pub fn begins_form(word: Word) -> bool {
    form(word).is_some()
}

/// Whether an operand begins with the token.
pub fn begins_operand(word: Word) -> bool {
    operand(word).is_some()
}

fn operand(word: Word) -> Rest {
    match word.text {
        "true" | "false" | "nil" | "leaf" | "none" => Some(&[]),
        "not" => Some(&[Need::Operand]),
        "some" => Some(&[Need::Open, Need::Expression, Need::Close]),
        "node" => Some(&[
            Need::Open,
            Need::Expression,
            Need::Comma,
            Need::Expression,
            Need::Comma,
            Need::Expression,
            Need::Close,
        ]),
        "(" => Some(&[Need::Expression, Need::Closing]),
        _ if word.is_name() => Some(&[Need::Call]),
        _ => when(word.is_number(), &[]),
    }
}

// Behind the first expression in parentheses.
fn closing(word: Word) -> Rest {
    match word.text {
        "," => Some(&[Need::Expression, Need::PairClose]),
        ":" => Some(&[Need::Type, Need::Close]),
        _ => when(word.text == ")", &[]),
    }
}

/// Whether the token is an operator between operands.
pub fn is_operator(word: Word) -> bool {
    matches!(
        word.text,
        "*" | "div" | "mod" | "+" | "-" | "::" | "=" | "<" | "<="
    )
}
