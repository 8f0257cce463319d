// Laws of the walk: each is the contract of a function that does nothing.
ghost use Rattle.simple_types.specs.Laws.{WalksAreTypings};

/// The walk over a program meets no fault where the program is typed, and one where it is not.
pub fn walks_are_typings()
    ensures { WalksAreTypings }
{}
