// How calls are changed.
use raml_syntax::FunId;

/// How calls of a function are changed in another one.
#[derive(Clone, Copy, PartialEq, Eq, Debug)]
pub enum How {
    /// All are written out, and what takes their results apart stands where these are built.
    Inlined,
    /// The body stands once for each call of an argument of which it is known of what it is built, and what takes that apart is
    /// settled.
    Unfolded,
}

/// A change that is tried: calls of one function in another.
#[derive(Clone, Copy, PartialEq, Eq, Debug)]
pub(crate) struct Change {
    pub(crate) how: How,
    pub(crate) caller: FunId,
    pub(crate) callee: FunId,
}
