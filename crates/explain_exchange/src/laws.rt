// Laws of exchanged parameters: each is the contract of a function that does nothing.
ghost use Rattle.explain_exchange.specs.Example.{Examples};
ghost use Rattle.explain_exchange.specs.Laws.{ExchangingKeeps, WrittenKeeps};

/// Where two parameters are exchanged, runs give the same, and values cost the same.
pub fn exchanging_keeps()
    ensures { ExchangingKeeps }
{}

/// So do those of a program that is found to be the changed one.
pub fn written_keeps()
    ensures { WrittenKeeps }
{}

/// Small programs are as they were worked out by hand once two parameters are exchanged.
pub fn small_examples()
    ensures { Examples }
{}
