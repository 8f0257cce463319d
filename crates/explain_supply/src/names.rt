// Names that no token of a source has.
ghost use Rattle.std.specs.Prelude.{◌≡◌, ℕ, IfOk, IfSome, IsTrue, string_bytes};
ghost use Rattle.parse_table.specs.Read.{pieces, token_of};
ghost use Rattle.explain_supply.specs.Names as n;
ghost use Rattle.explain_supply.specs.Read.{names_of};

use parse_table::token::{Piece, Word};
use std::alloc::{AllocError, Global};
use std::fmt::Write;

/// How many names are tried.
const MOST_NAMES: u32 = 1000;

/// The names of a list that pays for rounds, and of its entries.
#[derive(Drop)]
pub(crate) struct Names {
    pub(crate) rounds: String,
    pub(crate) round: String,
}

impl Names {
    /// The names with this number: `rounds` and `round`, or with a number from 2 on behind.
    fn at(alloc: Global, number: u32) -> Result<Names, AllocError>
        ensures { IfOk result (λ names. names_of names ≡ n.names_at number) }
    {
        let rounds = numbered(alloc, "rounds", number)?;
        let round = numbered(alloc, "round", number)?;
        Ok(Names { rounds, round })
    }

    /// Whether no token is one of them.
    fn are_fresh(&self, tokens: &[Piece<'_>]) -> bool
        ensures { IsTrue result → n.AreFresh (pieces tokens.now) (names_of self.now) }
    {
        !is_used(&self.rounds, tokens) && !is_used(&self.round, tokens)
    }

    /// The first of these names that no token has.
    pub(crate) fn fresh(alloc: Global, tokens: &[Piece<'_>]) -> Result<Option<Names>, AllocError>
        ensures { IfOk result (λ names. IfSome names (λ found. (number : ℕ) × (names_of found ≡ n.names_at number)
            × n.AreFresh (pieces tokens.now) (names_of found))) }
    {
        for number in 1..MOST_NAMES {
            let names = Names::at(alloc, number)?;
            if names.are_fresh(tokens) {
                return Ok(Some(names));
            }
        }
        Ok(None)
    }
}

/// A name, with a number from 2 on behind.
fn numbered(alloc: Global, name: &str, number: u32) -> Result<String, AllocError>
    ensures { IfOk result (λ text. string_bytes text ≡ n.numbered name.now number) }
{
    if number <= 1 {
        String::from_str(alloc, name)
    } else {
        format!(in alloc; "{name}{number}")
    }
}

/// Whether the token is this name.
fn is_name(name: &str, token: &Piece<'_>) -> bool
    ensures { result ≡ n.is_name name.now (token_of token.now) }
{
    matches!(token.word, Word::Name(found) if found == name)
}

/// Whether some token is this name.
fn is_used(name: &str, tokens: &[Piece<'_>]) -> bool
    ensures { result ≡ n.is_used name.now (pieces tokens.now) }
{
    for token in tokens {
        if is_name(name, token) {
            return true;
        }
    }
    false
}
