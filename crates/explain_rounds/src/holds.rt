// Calls, and what comes from them, in expressions.
ghost use Rattle.std.specs.Prelude.{◌≡◌};
ghost use Rattle.raml_syntax.specs.Read.{term_of};
ghost use Rattle.explain_rounds.specs.Classes as c;
ghost use Rattle.explain_rounds.specs.Read.{variables_in, binders};

use crate::class::Class;
use crate::scope::Scope;
use raml_syntax::{Binder, Expr, Form};

/// Whether the expression holds a call, or a variable that comes from one.
#[cycle(holds)]
pub fn holds_call(scope: &Scope, e: &Expr) -> bool
    ensures { result ≡ c.holds_call (variables_in scope.now) (term_of e.now) }
{
    match &e.form {
        Form::Number(_) | Form::Truth(_) | Form::Nil | Form::Leaf | Form::Nothing => false,
        Form::Var(name) => scope.class_at(name.text()).is_made(),
        Form::Call(..) => true,
        Form::Not(a) | Form::Just(a) | Form::Tick(_, a) | Form::Typed(a, _) => holds_call(scope, a),
        Form::Arith(_, a, b) | Form::Compare(_, a, b) | Form::Pair(a, b) | Form::Cons(a, b) => {
            holds_call(scope, a) || holds_call(scope, b)
        }
        Form::Node(a, b, c) | Form::If(a, b, c) => {
            holds_call(scope, a) || holds_call(scope, b) || holds_call(scope, c)
        }
        Form::Let(x, a, b) => holds_call(scope, a) || holds_below(scope, &[x], b),
        Form::LetPair(x, y, a, b) => holds_call(scope, a) || holds_below(scope, &[x, y], b),
        Form::MatchList(c, a, x, y, b) => {
            holds_call(scope, c) || holds_call(scope, a) || holds_below(scope, &[x, y], b)
        }
        Form::MatchTree(c, a, x, y, z, b) => {
            holds_call(scope, c) || holds_call(scope, a) || holds_below(scope, &[x, y, z], b)
        }
        Form::MatchOption(c, a, x, b) => {
            holds_call(scope, c) || holds_call(scope, a) || holds_below(scope, &[x], b)
        }
    }
}

/// The same below more names. What they are bound to holds no call where this is asked.
#[cycle(holds)]
fn holds_below(scope: &Scope, names: &[&Binder], e: &Expr) -> bool
    ensures { result ≡ c.holds_call (c.bind c.Other (binders names.now) (variables_in scope.now)) (term_of e.now) }
{
    match names {
        [] => holds_call(scope, e),
        [first, rest @ ..] => {
            let inner = Scope::Bound {
                at: first.at,
                name: &first.name,
                class: Class::Other,
                outer: &*scope,
            };
            holds_below(&inner, rest, e)
        }
    }
}
