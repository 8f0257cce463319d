// Laws of servers: each is the contract of a function that does nothing.
ghost use Rattle.std.specs.Prelude.{ℕ, List};
ghost use Rattle.lsp_server.specs.Example.{Examples};
ghost use Rattle.lsp_server.specs.Protocol.{IsTaken};
ghost use Rattle.lsp_server.specs.State.{State};
ghost use Rattle.lsp_server.specs.Told.{AllTold};
ghost use Rattle.lsp_server.specs.declared.life.Flow.{Flow};

use lsp_language::Language;

/// A server does what was worked out by hand.
pub fn small_examples()
    ensures { Examples }
{}

/// What is known of each open document its language told of the text as it is now, once a message is
/// taken too. So answers are by what is told of a text after all of its changes.
pub fn known_is_told<L: Language>(language: &L)
    ensures { (content : List ℕ) → (before after : State) → (old new : List ℕ) → (flow : Flow)
        → IsTaken (L.tells language.now) content before after old new flow
        → AllTold (L.tells language.now) before.documents → AllTold (L.tells language.now) after.documents }
{}
