// The life cycle.
ghost use Rattle.std.specs.Prelude.{◌≡◌, option_map};
ghost use Rattle.serde_json.specs.View.{view};
ghost use Rattle.lsp_server.specs.Life.{life_after, encoding_after, status_of};
ghost use Rattle.lsp_server.specs.Protocol.{flow_by};

use crate::method::{Method, Notice};
use lsp_params::agreed;
use lsp_positions::Encoding;
use serde_json::Value;

/// How far a server is in its life.
#[derive(Clone, Copy, Debug, PartialEq, Eq)]
pub enum Life {
    /// Before `initialize`.
    Fresh,
    /// After it.
    Running,
    /// After `shutdown`.
    ShutDown,
}

/// Whether a server goes on.
#[derive(Clone, Copy, Debug, PartialEq, Eq)]
pub enum Flow {
    GoOn,
    /// The program ends with this status.
    End(u8),
}

impl Life {
    /// After a request.
    pub fn after(self, method: Method) -> Life
        ensures { result ≡ life_after self method }
    {
        match self {
            Life::Fresh => after_fresh(method),
            Life::Running => after_running(method),
            Life::ShutDown => Life::ShutDown,
        }
    }

    /// How columns are counted after a request.
    pub fn encoding_after(
        self,
        encoding: Encoding,
        method: Method,
        params: Option<&Value>,
    ) -> Encoding
        ensures { result ≡ encoding_after self encoding method (option_map (λ params. view params.now) params.entry) }
    {
        match self {
            Life::Fresh => encoding_after_fresh(encoding, method, params),
            Life::Running | Life::ShutDown => encoding,
        }
    }

    /// Whether a server goes on after a notification.
    pub fn flow(self, notice: Notice) -> Flow
        ensures { result ≡ flow_by self notice }
    {
        match notice {
            Notice::Exit => Flow::End(self.status()),
            Notice::Open | Notice::Change | Notice::Close | Notice::Other => Flow::GoOn,
        }
    }

    /// The status of a program that ends.
    pub fn status(self) -> u8
        ensures { result ≡ status_of self }
    {
        match self {
            Life::ShutDown => 0,
            Life::Fresh | Life::Running => 1,
        }
    }
}

fn after_fresh(method: Method) -> Life
    ensures { result ≡ life_after Life.Fresh method }
{
    match method {
        Method::Initialize => Life::Running,
        Method::Shutdown | Method::About(_) | Method::Rename | Method::Unknown => Life::Fresh,
    }
}

fn after_running(method: Method) -> Life
    ensures { result ≡ life_after Life.Running method }
{
    match method {
        Method::Shutdown => Life::ShutDown,
        Method::Initialize | Method::About(_) | Method::Rename | Method::Unknown => Life::Running,
    }
}

fn encoding_after_fresh(encoding: Encoding, method: Method, params: Option<&Value>) -> Encoding
    ensures { result ≡ encoding_after Life.Fresh encoding method (option_map (λ params. view params.now) params.entry) }
{
    match method {
        Method::Initialize => agreed(params),
        Method::Shutdown | Method::About(_) | Method::Rename | Method::Unknown => encoding,
    }
}
