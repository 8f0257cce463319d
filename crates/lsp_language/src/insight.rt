// What is known of a text, at its parts.
use crate::span::Span;
use std::alloc::Global;

/// How much a diagnostic weighs, the heaviest first.
#[derive(Clone, Copy, Debug, PartialEq, Eq)]
pub enum Severity {
    Error,
    Warning,
    Information,
    Hint,
}

/// Another part of the text that a diagnostic speaks of.
#[derive(Debug, Drop)]
pub struct Related {
    pub span: Span,
    pub message: String,
}

/// What is to be said of a part of the text: a fault, or less.
#[derive(Debug, Drop)]
pub struct Diagnostic {
    pub span: Span,
    pub severity: Severity,
    /// The kind of diagnostic in one word, by which a user finds its page.
    pub code: Option<String>,
    /// Plain text, of one line or more.
    pub message: String,
    pub related: Vec<Related>,
}

/// What is shown where the pointer rests on a part of the text.
#[derive(Debug, Drop)]
pub struct Hover {
    pub span: Span,
    /// Markdown.
    pub text: String,
}

/// A line that is shown above the line in which a part of the text begins.
#[derive(Debug, Drop)]
pub struct Lens {
    pub span: Span,
    /// Plain text, of one line.
    pub title: String,
}

/// A label that is shown inside a line of the text, before the byte `offset`.
#[derive(Debug, Drop)]
pub struct Hint {
    pub offset: usize,
    /// Plain text, of one line.
    pub label: String,
}

/// A replacement: these words stand in the place of the part. An empty part is a place to put them in.
#[derive(Debug, Drop)]
pub struct Edit {
    pub span: Span,
    pub text: String,
}

/// A change of the text, which is offered where the part is met.
#[derive(Debug, Drop)]
pub struct Action {
    pub span: Span,
    /// Plain text, of one line.
    pub title: String,
    /// All are made at once, each of the text as it stands before them. No two of their parts meet.
    pub edits: Vec<Edit>,
}

/// What is known of one text.
#[derive(Debug, Drop)]
pub struct Insight {
    pub diagnostics: Vec<Diagnostic>,
    pub hovers: Vec<Hover>,
    pub lenses: Vec<Lens>,
    pub hints: Vec<Hint>,
    pub actions: Vec<Action>,
}

impl Insight {
    ghost use Rattle.std.specs.Prelude.{◌≡◌, []};

    /// Nothing yet.
    pub fn new(alloc: Global) -> Insight
        ensures diagnostics { result.diagnostics.items ≡ [] }
        ensures hovers { result.hovers.items ≡ [] }
        ensures lenses { result.lenses.items ≡ [] }
        ensures hints { result.hints.items ≡ [] }
        ensures actions { result.actions.items ≡ [] }
    {
        Insight {
            diagnostics: Vec::new(alloc),
            hovers: Vec::new(alloc),
            lenses: Vec::new(alloc),
            hints: Vec::new(alloc),
            actions: Vec::new(alloc),
        }
    }
}
