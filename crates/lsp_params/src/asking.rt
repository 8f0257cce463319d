// What requests on a text ask.
ghost use Rattle.std.specs.Prelude.{◌≡◌, option_map};
ghost use Rattle.serde_json.specs.View.{view};
ghost use Rattle.lsp_params.specs.Asks.{uri_of, ask_of, declares, names_ask_of, new_name_of};
ghost use Rattle.lsp_params.specs.Read.{new_name_view};

use crate::json::{position_in, range_in, text_in, truth_in};
use lsp_documents::Range;
use lsp_positions::Position;
use serde_json::Value;

/// Of what requests on a text are.
#[derive(Clone, Copy, Debug, PartialEq, Eq)]
pub enum Subject {
    Hover,
    Lenses,
    Hints,
    Actions,
    Names(NamesSubject),
}

/// Of what requests on the names of a text are.
#[derive(Clone, Copy, Debug, PartialEq, Eq)]
pub enum NamesSubject {
    Definition,
    References,
    Highlights,
    Symbols,
    Folds,
    Prepare,
}

/// What is asked of a text.
#[derive(Clone, Copy, Debug, PartialEq, Eq)]
pub enum Ask {
    /// What is known at a position.
    Hover(Position),
    /// What is shown above lines.
    Lenses,
    /// What is shown inside of lines, in this range.
    Hints(Range),
    /// Changes that meet this range.
    Actions(Range),
    /// What its names are.
    Names(NamesAsk),
}

/// What is asked of the names of a text.
#[derive(Clone, Copy, Debug, PartialEq, Eq)]
pub enum NamesAsk {
    /// Where the name at a position is bound.
    Definition(Position),
    /// Where the name at a position is used, and where it is bound, if that is wanted too.
    References(Position, bool),
    /// The same places, all of one text.
    Highlights(Position),
    /// What an outline shows.
    Symbols,
    /// The lines that can be folded away.
    Folds,
    /// Where the name at a position stands, which can get another one.
    Prepare(Position),
}

/// Another name that is wanted for what is named at a position.
#[derive(Clone, Copy, Debug)]
pub struct NewName<'a> {
    pub uri: &'a str,
    pub position: Position,
    pub name: &'a str,
}

/// What a request asks, and `None` where its params do not say it.
pub fn ask_of(subject: Subject, params: &Value) -> Option<Ask>
    ensures { result ≡ ask_of subject (view params.now) }
{
    match subject {
        Subject::Hover => Some(Ask::Hover(position_in(params, "position")?)),
        Subject::Lenses => Some(Ask::Lenses),
        Subject::Hints => Some(Ask::Hints(range_in(params, "range")?)),
        Subject::Actions => Some(Ask::Actions(range_in(params, "range")?)),
        Subject::Names(subject) => Some(Ask::Names(names_ask_of(subject, params)?)),
    }
}

fn names_ask_of(subject: NamesSubject, params: &Value) -> Option<NamesAsk>
    ensures { result ≡ names_ask_of subject (view params.now) }
{
    match subject {
        NamesSubject::Definition => Some(NamesAsk::Definition(position_in(params, "position")?)),
        NamesSubject::References => Some(NamesAsk::References(
            position_in(params, "position")?,
            declares(params)?,
        )),
        NamesSubject::Highlights => Some(NamesAsk::Highlights(position_in(params, "position")?)),
        NamesSubject::Symbols => Some(NamesAsk::Symbols),
        NamesSubject::Folds => Some(NamesAsk::Folds),
        NamesSubject::Prepare => Some(NamesAsk::Prepare(position_in(params, "position")?)),
    }
}

// Whether the place of the binding is wanted, too.
fn declares(params: &Value) -> Option<bool>
    ensures { result ≡ declares (view params.now) }
{
    truth_in(params.get("context")?, "includeDeclaration")
}

/// The name that is wanted, and `None` where the params do not say it.
pub fn new_name_of(params: &Value) -> Option<NewName<'_>>
    ensures { option_map new_name_view result ≡ new_name_of (view params.now) }
{
    let uri = uri_of(params)?;
    let position = position_in(params, "position")?;
    let name = text_in(params, "newName")?;
    Some(NewName {
        uri,
        position,
        name,
    })
}

/// The document that params name.
pub fn uri_of(params: &Value) -> Option<&str>
    ensures { option_map (λ uri. uri.now) result ≡ uri_of (view params.now) }
{
    text_in(params.get("textDocument")?, "uri")
}
