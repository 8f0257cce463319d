// Messages.
ghost use Rattle.std.specs.Prelude.{◌≡◌, codes, option_map};
ghost use Rattle.serde_json.specs.View.{view};
ghost use Rattle.serde_json.specs.Find.{get};

use crate::code::ErrorCode;
use serde_json::Value;

/// What a request is known by.
#[derive(Debug, Drop)]
pub enum Id {
    Number(i64),
    Text(String),
}

/// What a message is. A request and a notification have the name of their method.
#[derive(Debug, Drop)]
pub enum Kind {
    Request(Id, String),
    Notification(String),
    /// An answer to a request of the server.
    Response(Option<Id>),
    Malformed(ErrorCode),
}

/// A message, with its whole JSON.
#[derive(Debug, Drop)]
pub struct Message {
    pub kind: Kind,
    pub value: Value,
}

impl Message {
    /// The member `params`, where it is.
    pub fn params(&self) -> Option<&Value>
        ensures { option_map (λ params. view params.now) result ≡ get (codes "params") (view self.now.value) }
    {
        self.value.get("params")
    }
}
