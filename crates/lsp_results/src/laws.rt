// Laws of results: each is the contract of a function that does nothing.
ghost use Rattle.lsp_results.specs.Example.{Examples};

/// Results are as they were worked out by hand.
pub fn small_examples()
    ensures { Examples }
{}
