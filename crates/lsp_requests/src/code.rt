// Codes of errors.
ghost use Rattle.std.specs.Prelude.{◌≡◌};
ghost use Rattle.lsp_requests.specs.Answers.{code_of, failure_message, message_of};

/// Why a request has no result.
#[derive(Clone, Copy, Debug, PartialEq, Eq)]
pub enum ErrorCode {
    /// The message is no JSON.
    ParseError,
    /// The JSON is no message.
    InvalidRequest,
    MethodNotFound,
    InvalidParams,
    InternalError,
    /// The request came before `initialize`.
    NotInitialized,
    /// The client cancelled the request.
    Cancelled,
    /// The document changed while the request was served.
    ContentModified,
    /// The request is one that this text does not allow.
    RequestFailed(Failure),
}

/// Why a text does not allow what a request asks of it.
#[derive(Clone, Copy, Debug, PartialEq, Eq)]
pub enum Failure {
    /// Nothing that can get another name stands at the place.
    NothingNamed,
    /// The new name is no name of the language.
    NoName,
    /// The new name is in use where the thing is named.
    NameInUse,
}

impl ErrorCode {
    /// Its number.
    pub fn number(self) -> i64
        ensures { result ≡ code_of self }
    {
        match self {
            ErrorCode::ParseError => -32700,
            ErrorCode::InvalidRequest => -32600,
            ErrorCode::MethodNotFound => -32601,
            ErrorCode::InvalidParams => -32602,
            ErrorCode::InternalError => -32603,
            ErrorCode::NotInitialized => -32002,
            ErrorCode::Cancelled => -32800,
            ErrorCode::ContentModified => -32801,
            ErrorCode::RequestFailed(_) => -32803,
        }
    }

    /// What it says.
    pub fn message(self) -> &'static str
        ensures { result.now ≡ message_of self }
    {
        match self {
            ErrorCode::ParseError => "Parse error",
            ErrorCode::InvalidRequest => "Invalid Request",
            ErrorCode::MethodNotFound => "Method not found",
            ErrorCode::InvalidParams => "Invalid params",
            ErrorCode::InternalError => "Internal error",
            ErrorCode::NotInitialized => "Server not initialized",
            ErrorCode::Cancelled => "Request cancelled",
            ErrorCode::ContentModified => "Content modified",
            ErrorCode::RequestFailed(failure) => failure.message(),
        }
    }
}

impl Failure {
    /// What it says.
    pub fn message(self) -> &'static str
        ensures { result.now ≡ failure_message self }
    {
        match self {
            Failure::NothingNamed => "Nothing that can get another name stands there",
            Failure::NoName => "This is no name of the language",
            Failure::NameInUse => "This name is in use there",
        }
    }
}
