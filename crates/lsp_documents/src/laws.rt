// Laws of changes: each is the contract of a function that does nothing.
ghost use Rattle.lsp_documents.specs.Example.{Examples};

/// A small text is changed as it was worked out by hand.
pub fn small_examples()
    ensures { Examples }
{}
