// First faults of sources.
ghost use Rattle.std.specs.Prelude.{◌≡◌, IfOk};
ghost use Rattle.explain_messages.specs.Places.{syntax_place, type_place};
ghost use Rattle.explain_faults.specs.Faults.{place, pass, spelling_pass, code_of, spelling_code, typing_code};

use explain_messages::{Message, syntax_message, type_message};
use raml_lex::LexFault;
use raml_parse::ParseFault;
use simple_types::TypeFault;
use std::alloc::{AllocError, Global};

/// Why a source is refused.
#[derive(Debug, Drop)]
pub enum SourceFault {
    /// It spells no program.
    Spelling(ParseFault),
    /// The program that it spells is not typed.
    Typing(TypeFault),
}

impl SourceFault {
    /// The byte of the source at which it stands. Want of memory has none.
    pub fn place(&self) -> Option<usize>
        ensures { result ≡ place self.now }
    {
        match self {
            SourceFault::Spelling(fault) => spelling_place(fault),
            SourceFault::Typing(fault) => typing_place(fault),
        }
    }

    /// The number of the pass over the source that finds it, from 0: characters, tokens, forms, types.
    pub(crate) fn pass(&self) -> u8
        ensures { result ≡ pass self.now }
    {
        match self {
            SourceFault::Spelling(fault) => spelling_pass(fault),
            SourceFault::Typing(_) => 3,
        }
    }

    /// The word of `raml` for the kind of fault.
    pub fn code(&self) -> &'static str
        ensures { result.now ≡ code_of self.now }
    {
        match self {
            SourceFault::Spelling(fault) => spelling_code(fault),
            SourceFault::Typing(fault) => typing_code(fault),
        }
    }

    /// What is wrong, in words. There is nothing to tell where only memory ran out.
    pub fn message(&self, alloc: Global, source: &[u8]) -> Result<Option<Message>, AllocError>
        ensures { IfOk result (λ told. told ≡ place self.now) }
    {
        match self {
            SourceFault::Spelling(fault) => syntax_message(alloc, source, fault),
            SourceFault::Typing(fault) => type_message(alloc, source, fault),
        }
    }
}

fn spelling_place(fault: &ParseFault) -> Option<usize>
    ensures { result ≡ syntax_place fault.now }
{
    match *fault {
        ParseFault::NotUtf8 { at } => Some(at.0 as usize),
        ParseFault::Lex(LexFault::BadChar { at }) => Some(at.0 as usize),
        ParseFault::Lex(LexFault::NumberTooWide { at }) => Some(at.0 as usize),
        ParseFault::Lex(LexFault::OpenComment { at }) => Some(at.0 as usize),
        ParseFault::Lex(LexFault::NoMemory) => None,
        ParseFault::Syntax { at } => Some(at.0 as usize),
        ParseFault::TooDeep { at } => Some(at.0 as usize),
        ParseFault::TooMany { at } => Some(at.0 as usize),
        ParseFault::NoMemory => None,
    }
}

fn typing_place(fault: &TypeFault) -> Option<usize>
    ensures { result ≡ type_place fault.now }
{
    match fault {
        TypeFault::Unknown { at } => Some(at.0 as usize),
        TypeFault::Twice { at } => Some(at.0 as usize),
        TypeFault::Wanted { at, .. } => Some(at.0 as usize),
        TypeFault::NeedsType { at } => Some(at.0 as usize),
        TypeFault::Arity { at, .. } => Some(at.0 as usize),
        TypeFault::NoMemory => None,
    }
}

fn spelling_pass(fault: &ParseFault) -> u8
    ensures { result ≡ spelling_pass fault.now }
{
    match fault {
        ParseFault::NotUtf8 { .. } => 0,
        ParseFault::Lex(_) => 1,
        ParseFault::Syntax { .. } => 2,
        ParseFault::TooDeep { .. } => 2,
        ParseFault::TooMany { .. } => 2,
        ParseFault::NoMemory => 2,
    }
}

fn spelling_code(fault: &ParseFault) -> &'static str
    ensures { result.now ≡ spelling_code fault.now }
{
    match fault {
        ParseFault::NotUtf8 { .. } => "not utf-8",
        ParseFault::Lex(LexFault::BadChar { .. }) => "bad character",
        ParseFault::Lex(LexFault::NumberTooWide { .. }) => "number too wide",
        ParseFault::Lex(LexFault::OpenComment { .. }) => "open comment",
        ParseFault::Syntax { .. } => "syntax",
        ParseFault::TooDeep { .. } => "too deep",
        ParseFault::TooMany { .. } => "too many",
        ParseFault::Lex(LexFault::NoMemory) => "no memory",
        ParseFault::NoMemory => "no memory",
    }
}

fn typing_code(fault: &TypeFault) -> &'static str
    ensures { result.now ≡ typing_code fault.now }
{
    match fault {
        TypeFault::Unknown { .. } => "unknown",
        TypeFault::Twice { .. } => "twice",
        TypeFault::Wanted { .. } => "type",
        TypeFault::NeedsType { .. } => "needs a type",
        TypeFault::Arity { .. } => "arity",
        TypeFault::NoMemory => "no memory",
    }
}
