// A group of functions whose rounds are to be paid for.
ghost use Rattle.std.specs.Prelude.{◌≡◌, ◌<◌, ◌^◌, length};
ghost use Rattle.std.specs.Option.{option_map};
ghost use Rattle.raml_syntax.specs.Read.{program_of, function_of};
ghost use Rattle.call_groups.specs.Read.{ids_of};
ghost use Rattle.parse_table.specs.Read.{token_of};
ghost use Rattle.explain_supply.specs.Insertions as i;
ghost use Rattle.explain_supply.specs.Read.{place_of, insertion_of};

use crate::insertion::Insertion;
use crate::place::Place;
use parse_table::token::{Piece, Sign};
use raml_syntax::{Fun, FunId, Program};

/// Functions of a program that call each other.
#[derive(Clone, Copy)]
pub(crate) struct Group<'g, 'a> {
    pub(crate) program: &'a Program,
    pub(crate) funs: &'g [FunId],
}

impl<'g, 'a> Group<'g, 'a> {
    /// The function of the group that has this name.
    fn member(self, name: &str) -> Option<&'a Fun>
        requires { length (program_of self.program.now) < 2 ^ 32 }
        ensures { option_map (λ fun. function_of fun.now) result ≡
            i.member (program_of self.entry.program.now) (ids_of self.entry.funs.now) name.now }
    {
        match self.program.find(name) {
            Some(fun) => {
                if is_among(fun, self.funs) {
                    self.program.funs.get(fun.0 as usize)
                } else {
                    None
                }
            }
            None => None,
        }
    }

    /// What is inserted behind an opening parenthesis.
    fn at_open(self, place: Place<'_>) -> Option<Insertion<'a>>
        requires { length (program_of self.program.now) < 2 ^ 32 }
        ensures { option_map insertion_of result ≡
            i.at_open (program_of self.entry.program.now) (ids_of self.entry.funs.now) (place_of place.entry) }
    {
        match place {
            Place::Named(fun) => {
                self.member(fun)?;
                Some(Insertion::Parameter)
            }
            Place::Behind(fun, callee) => {
                self.member(callee)?;
                Some(handed(self.member(fun)))
            }
            Place::Outside | Place::Header(_) | Place::Body(_) => None,
        }
    }

    /// What is inserted behind a `=`.
    fn at_equal(self, place: Place<'_>) -> Option<Insertion<'a>>
        requires { length (program_of self.program.now) < 2 ^ 32 }
        ensures { option_map insertion_of result ≡
            i.at_equal (program_of self.entry.program.now) (ids_of self.entry.funs.now) (place_of place.entry) }
    {
        match place {
            Place::Header(fun) => {
                let member = self.member(fun)?;
                Some(Insertion::Match(&member.result))
            }
            Place::Outside | Place::Named(_) | Place::Body(_) | Place::Behind(..) => None,
        }
    }

    /// What is inserted right behind a token at a place.
    pub(crate) fn inserted(self, place: Place<'_>, token: &Piece<'_>) -> Option<Insertion<'a>>
        requires { length (program_of self.program.now) < 2 ^ 32 }
        ensures { option_map insertion_of result ≡
            i.inserted (program_of self.entry.program.now) (ids_of self.entry.funs.now) (place_of place.entry) (token_of token.now) }
    {
        if token.is(Sign::Open) {
            self.at_open(place)
        } else if token.is(Sign::Equal) {
            self.at_equal(place)
        } else {
            None
        }
    }
}

/// The list that a function hands on, which is of the group or is not.
fn handed<'a>(member: Option<&Fun>) -> Insertion<'a>
    ensures { insertion_of result ≡ i.handed (option_map (λ fun. function_of fun.now) member.entry) }
{
    match member {
        Some(_) => Insertion::Rest,
        None => Insertion::Empty,
    }
}

/// Whether a function is one of these.
fn is_among(fun: FunId, funs: &[FunId]) -> bool
    ensures { result ≡ i.is_among fun.0 (ids_of funs.now) }
{
    match funs {
        [] => false,
        [first, rest @ ..] => fun == *first || is_among(fun, rest),
    }
}
