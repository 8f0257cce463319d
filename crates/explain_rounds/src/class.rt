// What variables and expressions of a body are, seen from its parameters.
ghost use Rattle.std.specs.Prelude.{◌≡◌};
ghost use Rattle.raml_syntax.specs.Read.{term_of, ty_of};
ghost use Rattle.explain_rounds.specs.Classes as c;
ghost use Rattle.explain_rounds.specs.Read.{variables_in};

use crate::holds::holds_call;
use crate::scope::Scope;
use raml_syntax::{Expr, Form, Ty};

/// What a variable or an expression is, seen from the parameters of its function.
#[derive(Clone, Copy)]
pub enum Class {
    /// A parameter that holds a list, a tree or an option.
    Whole,
    /// What a match took out of a parameter, or a pair that holds such a part.
    Part,
    /// It comes from a call.
    Made,
    Other,
}

impl Class {
    pub fn is_part(self) -> bool
        ensures { result ≡ c.is_part self }
    {
        matches!(self, Class::Part)
    }

    pub fn is_made(self) -> bool
        ensures { result ≡ c.is_made self }
    {
        matches!(self, Class::Made)
    }

    /// What a match takes out of a value of this class.
    pub fn taken_out(self) -> Class
        ensures { result ≡ c.taken_out self }
    {
        match self {
            Class::Whole => Class::Part,
            Class::Part => Class::Part,
            Class::Made => Class::Made,
            Class::Other => Class::Other,
        }
    }

    /// A pair is a part where it holds one.
    fn paired(self, other: Class) -> Class
        ensures { result ≡ c.paired self other }
    {
        if self.is_part() || other.is_part() {
            Class::Part
        } else if self.is_made() || other.is_made() {
            Class::Made
        } else {
            Class::Other
        }
    }
}

/// Whether the type holds a list, a tree or an option.
pub fn is_sized(ty: &Ty) -> bool
    ensures { result ≡ c.is_sized (ty_of ty.now) }
{
    match ty {
        Ty::Int => false,
        Ty::Bool => false,
        Ty::Pair(first, second) => is_sized(first) || is_sized(second),
        Ty::List(_) => true,
        Ty::Tree(_) => true,
        Ty::Opt(_) => true,
    }
}

/// A parameter of a sized type is whole.
pub fn class_of_type(ty: &Ty) -> Class
    ensures { result ≡ c.class_of_type (ty_of ty.now) }
{
    if is_sized(ty) {
        Class::Whole
    } else {
        Class::Other
    }
}

/// Whether the expression comes from a call.
fn made_or_other(scope: &Scope, e: &Expr) -> Class
    ensures { result ≡ c.made_or_other (variables_in scope.now) (term_of e.now) }
{
    if holds_call(scope, e) {
        Class::Made
    } else {
        Class::Other
    }
}

/// What an expression is.
pub fn class_of(scope: &Scope, e: &Expr) -> Class
    ensures { result ≡ c.class_of (variables_in scope.now) (term_of e.now) }
{
    match &e.form {
        Form::Var(name) => scope.class_at(name.text()),
        Form::Pair(first, second) => class_of(scope, first).paired(class_of(scope, second)),
        Form::Typed(inner, _) => class_of(scope, inner),
        Form::Call(..) => Class::Made,
        Form::Number(_) | Form::Truth(_) | Form::Nil | Form::Leaf | Form::Nothing => Class::Other,
        Form::Arith(..)
        | Form::Compare(..)
        | Form::Not(_)
        | Form::Cons(..)
        | Form::Node(..)
        | Form::Just(_)
        | Form::Let(..)
        | Form::LetPair(..)
        | Form::If(..)
        | Form::MatchList(..)
        | Form::MatchTree(..)
        | Form::MatchOption(..)
        | Form::Tick(..) => made_or_other(scope, e),
    }
}
