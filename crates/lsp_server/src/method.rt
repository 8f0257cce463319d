// The methods of messages.
ghost use Rattle.std.specs.Prelude.{◌≡◌};
ghost use Rattle.lsp_server.specs.Life.{method_of, names_method_of, notice_of};

use lsp_params::{NamesSubject, Subject};

/// A request that is served.
#[derive(Clone, Copy, Debug, PartialEq, Eq)]
pub enum Method {
    Initialize,
    Shutdown,
    /// It asks something of a text.
    About(Subject),
    /// It asks for another name.
    Rename,
    Unknown,
}

/// A notification that is heard.
#[derive(Clone, Copy, Debug, PartialEq, Eq)]
pub enum Notice {
    Exit,
    Open,
    Change,
    Close,
    Other,
}

/// The request of this name.
pub fn method_of(name: &str) -> Method
    ensures { result ≡ method_of name.now }
{
    if name == "initialize" {
        Method::Initialize
    } else if name == "shutdown" {
        Method::Shutdown
    } else if name == "textDocument/hover" {
        Method::About(Subject::Hover)
    } else if name == "textDocument/codeLens" {
        Method::About(Subject::Lenses)
    } else if name == "textDocument/inlayHint" {
        Method::About(Subject::Hints)
    } else if name == "textDocument/codeAction" {
        Method::About(Subject::Actions)
    } else {
        names_method_of(name)
    }
}

/// The request on names of this name.
fn names_method_of(name: &str) -> Method
    ensures { result ≡ names_method_of name.now }
{
    if name == "textDocument/definition" {
        Method::About(Subject::Names(NamesSubject::Definition))
    } else if name == "textDocument/references" {
        Method::About(Subject::Names(NamesSubject::References))
    } else if name == "textDocument/documentHighlight" {
        Method::About(Subject::Names(NamesSubject::Highlights))
    } else if name == "textDocument/documentSymbol" {
        Method::About(Subject::Names(NamesSubject::Symbols))
    } else if name == "textDocument/foldingRange" {
        Method::About(Subject::Names(NamesSubject::Folds))
    } else if name == "textDocument/prepareRename" {
        Method::About(Subject::Names(NamesSubject::Prepare))
    } else if name == "textDocument/rename" {
        Method::Rename
    } else {
        Method::Unknown
    }
}

/// The notification of this name.
pub fn notice_of(name: &str) -> Notice
    ensures { result ≡ notice_of name.now }
{
    if name == "exit" {
        Notice::Exit
    } else if name == "textDocument/didOpen" {
        Notice::Open
    } else if name == "textDocument/didChange" {
        Notice::Change
    } else if name == "textDocument/didClose" {
        Notice::Close
    } else {
        Notice::Other
    }
}
