// Laws: each is the contract of a function that does nothing.
ghost use Rattle.explain_scopes.specs.Example.{Examples};
ghost use Rattle.explain_scopes.specs.Levels.{BindingsAreMeant};
ghost use Rattle.explain_scopes.specs.Renamed.{RenamingIsMeant};

/// What a variable means is what the meaning of a program takes.
pub fn bindings_are_meant()
    ensures { BindingsAreMeant }
{}

/// A variable with a name that no other one has means what it did.
pub fn renaming_is_meant()
    ensures { RenamingIsMeant }
{}

/// A small program has the names that were worked out by hand.
pub fn small_examples()
    ensures { Examples }
{}
