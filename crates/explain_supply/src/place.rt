// Where a token stands in a source.
ghost use Rattle.std.specs.Prelude.{◌≡◌};
ghost use Rattle.parse_table.specs.Read.{token_of};
ghost use Rattle.explain_supply.specs.Insertions as i;
ghost use Rattle.explain_supply.specs.Read.{place_of};

use parse_table::token::{Piece, Sign, Word};

/// Where a token stands, by the tokens before it.
#[derive(Clone, Copy)]
pub(crate) enum Place<'a> {
    /// Behind no function's name.
    Outside,
    /// Right behind the name of a function that begins.
    Named(&'a str),
    /// Behind the parenthesis after it, and up to its `=`.
    Header(&'a str),
    /// In its body.
    Body(&'a str),
    /// In its body, right behind a name.
    Behind(&'a str, &'a str),
}

impl<'a> Place<'a> {
    /// Where the token behind this one stands.
    pub(crate) fn next(self, token: &Piece<'a>) -> Place<'a>
        ensures { place_of result ≡ i.next (place_of self.entry) (token_of token.now) }
    {
        if token.is(Sign::Fun) {
            Place::Outside
        } else {
            self.moved(token)
        }
    }

    /// The same behind a token that begins no function.
    fn moved(self, token: &Piece<'a>) -> Place<'a>
        ensures { place_of result ≡ i.moved (place_of self.entry) (token_of token.now) }
    {
        match self {
            Place::Outside => named(token),
            Place::Named(fun) => Place::Header(fun),
            Place::Header(fun) => {
                if token.is(Sign::Equal) {
                    Place::Body(fun)
                } else {
                    Place::Header(fun)
                }
            }
            Place::Body(fun) | Place::Behind(fun, _) => in_body(fun, token),
        }
    }
}

/// Behind a token before which no function's name stands.
fn named<'a>(token: &Piece<'a>) -> Place<'a>
    ensures { place_of result ≡ i.named (token_of token.now) }
{
    match token.word {
        Word::Name(fun) => Place::Named(fun),
        Word::Number(_) | Word::Sign(_) => Place::Outside,
    }
}

/// Behind a token of the body of a function.
fn in_body<'a>(fun: &'a str, token: &Piece<'a>) -> Place<'a>
    ensures { place_of result ≡ i.in_body fun.now (token_of token.now) }
{
    match token.word {
        Word::Name(name) => Place::Behind(fun, name),
        Word::Number(_) | Word::Sign(_) => Place::Body(fun),
    }
}
