// A law of first faults: the contract of a function that does nothing.
ghost use Rattle.raml_parse.specs.Counting.{TooManyIsCounted};

/// A text is told to have too many items exactly at the `fun` of a 257th function, and at the comma after an
/// eighth parameter or argument.
pub fn too_many_is_counted()
    ensures { TooManyIsCounted }
{}
