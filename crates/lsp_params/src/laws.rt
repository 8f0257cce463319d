// Laws of params: each is the contract of a function that does nothing.
ghost use Rattle.lsp_params.specs.Example.{Examples};

/// Params say what was worked out by hand.
pub fn small_examples()
    ensures { Examples }
{}
