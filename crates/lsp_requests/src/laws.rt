// Laws of messages: each is the contract of a function that does nothing.
ghost use Rattle.lsp_requests.specs.Example.{Examples};

/// Messages are of the kinds that were worked out by hand.
pub fn small_examples()
    ensures { Examples }
{}
