// What is inserted in a source.
ghost use Rattle.std.specs.Prelude.{◌≡◌, ◌++◌, IfOk, OnOk, string_bytes};
ghost use Rattle.raml_syntax.specs.Read.{ty_of};
ghost use Rattle.explain_supply.specs.Insertions as i;
ghost use Rattle.explain_supply.specs.Read.{names_of, insertion_of};

use crate::names::Names;
use raml_syntax::Ty;
use std::alloc::{AllocError, Global};

/// What is inserted so that each round takes an entry of a list.
#[derive(Clone, Copy)]
pub(crate) enum Insertion<'a> {
    /// The list, as the first parameter of a function of the group.
    Parameter,
    /// A match that takes an entry, in front of a body that gives a value of this type.
    Match(&'a Ty),
    /// What is left of the list, as the first argument of a call inside of the group.
    Rest,
    /// An empty list, as that of a call from outside.
    Empty,
}

impl<'a> Insertion<'a> {
    /// The text that is inserted.
    pub(crate) fn text(self, alloc: Global, names: &Names) -> Result<String, AllocError>
        ensures { IfOk result (λ text. string_bytes text ≡ i.text (names_of names.now) (insertion_of self.entry)) }
    {
        let rounds = names.rounds.as_str();
        match self {
            Insertion::Parameter => format!(in alloc; "{rounds} : bool list, "),
            Insertion::Match(ty) => {
                let value = value_text(alloc, ty)?;
                match_text(alloc, rounds, &names.round, &value)
            }
            Insertion::Rest => format!(in alloc; "{rounds}, "),
            Insertion::Empty => String::from_str(alloc, "nil, "),
        }
    }
}

/// A match that takes an entry of the list, up to its last arrow. Where the list is empty, it gives this value.
fn match_text(alloc: Global, rounds: &str, round: &str, value: &str) -> Result<String, AllocError>
    ensures { IfOk result (λ text. string_bytes text ≡ i.match_on rounds.now round.now value.now) }
{
    format!(in alloc; " match {rounds} with nil -> {value} | {round} :: {rounds} ->")
}

/// A value of a type.
fn value_text(alloc: Global, ty: &Ty) -> Result<String, AllocError>
    ensures { IfOk result (λ text. string_bytes text ≡ i.value (ty_of ty.now)) }
{
    let mut text = String::new(alloc);
    push_value(&mut text, ty)?;
    Ok(text)
}

/// Appends a value of a type.
fn push_value(text: &mut String, ty: &Ty) -> Result<(), AllocError>
    ensures { OnOk result (string_bytes text.new ≡ string_bytes text.old ++ i.value (ty_of ty.now)) }
{
    match ty {
        Ty::Int => text.push_str("0"),
        Ty::Bool => text.push_str("false"),
        Ty::Pair(first, second) => {
            text.push_str("(")?;
            push_value(text, first)?;
            text.push_str(", ")?;
            push_value(text, second)?;
            text.push_str(")")
        }
        Ty::List(_) => text.push_str("nil"),
        Ty::Tree(_) => text.push_str("leaf"),
        Ty::Opt(_) => text.push_str("none"),
    }
}
