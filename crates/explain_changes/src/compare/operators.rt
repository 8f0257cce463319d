// Whether operators, calls and conditions are the changed ones.
ghost use Rattle.std.specs.Prelude.{◌↔◌, IsTrue};
ghost use Rattle.raml_syntax.specs.Tree as t;
ghost use Rattle.raml_syntax.specs.Read.{term_of, terms_of, ty_of};
ghost use Rattle.explain_changes.specs.Same.{Same};
ghost use Rattle.explain_changes.specs.Read.{changed_at};

use crate::compare::leaves::same_name;
use crate::compare::{Changing, same, same_all};
use raml_syntax::{ArithOp, CompareOp, Expr, Form, Name, Ty};

/// Whether the other expression is the changed arithmetic operation.
#[cycle(same)]
pub fn same_arith<'s, 'a>(
    place: Changing<'s, 'a>,
    op: ArithOp,
    a: &'a Expr,
    b: &'a Expr,
    other: &Expr,
) -> bool
    ensures { IsTrue result ↔ Same (changed_at place.entry (t.Arith 0 op (term_of a.now) (term_of b.now))) (term_of other.now) }
{
    match &other.form {
        Form::Arith(other_op, c, d) => { op == *other_op && same(place, a, c) && same(place, b, d) }
        _ => false,
    }
}

/// Whether the other expression is the changed comparison.
#[cycle(same)]
pub fn same_compare<'s, 'a>(
    place: Changing<'s, 'a>,
    op: CompareOp,
    a: &'a Expr,
    b: &'a Expr,
    other: &Expr,
) -> bool
    ensures { IsTrue result ↔ Same (changed_at place.entry (t.Compare 0 op (term_of a.now) (term_of b.now))) (term_of other.now) }
{
    match &other.form {
        Form::Compare(other_op, c, d) => {
            op == *other_op && same(place, a, c) && same(place, b, d)
        }
        _ => false,
    }
}

/// Whether the other expression is the changed negation.
#[cycle(same)]
pub fn same_not<'s, 'a>(place: Changing<'s, 'a>, a: &'a Expr, other: &Expr) -> bool
    ensures { IsTrue result ↔ Same (changed_at place.entry (t.Not 0 (term_of a.now))) (term_of other.now) }
{
    match &other.form {
        Form::Not(b) => { same(place, a, b) }
        _ => false,
    }
}

/// Whether the other expression is the changed pair.
#[cycle(same)]
pub fn same_pair<'s, 'a>(place: Changing<'s, 'a>, a: &'a Expr, b: &'a Expr, other: &Expr) -> bool
    ensures { IsTrue result ↔ Same (changed_at place.entry (t.Pair 0 (term_of a.now) (term_of b.now))) (term_of other.now) }
{
    match &other.form {
        Form::Pair(c, d) => { same(place, a, c) && same(place, b, d) }
        _ => false,
    }
}

/// Whether the other expression is the changed list.
#[cycle(same)]
pub fn same_cons<'s, 'a>(place: Changing<'s, 'a>, a: &'a Expr, b: &'a Expr, other: &Expr) -> bool
    ensures { IsTrue result ↔ Same (changed_at place.entry (t.Cons 0 (term_of a.now) (term_of b.now))) (term_of other.now) }
{
    match &other.form {
        Form::Cons(c, d) => { same(place, a, c) && same(place, b, d) }
        _ => false,
    }
}

/// Whether the other expression is the changed tree.
#[cycle(same)]
pub fn same_node<'s, 'a>(
    place: Changing<'s, 'a>,
    a: &'a Expr,
    b: &'a Expr,
    c: &'a Expr,
    other: &Expr,
) -> bool
    ensures { IsTrue result ↔ Same (changed_at place.entry (t.Node 0 (term_of a.now) (term_of b.now) (term_of c.now))) (term_of other.now) }
{
    match &other.form {
        Form::Node(d, f, g) => { same(place, a, d) && same(place, b, f) && same(place, c, g) }
        _ => false,
    }
}

/// Whether the other expression is the changed option.
#[cycle(same)]
pub fn same_just<'s, 'a>(place: Changing<'s, 'a>, a: &'a Expr, other: &Expr) -> bool
    ensures { IsTrue result ↔ Same (changed_at place.entry (t.Just 0 (term_of a.now))) (term_of other.now) }
{
    match &other.form {
        Form::Just(b) => { same(place, a, b) }
        _ => false,
    }
}

/// Whether the other expression is the changed call.
#[cycle(same)]
pub fn same_call<'s, 'a>(
    place: Changing<'s, 'a>,
    function: &Name,
    args: &'a [Expr],
    other: &Expr,
) -> bool
    ensures { IsTrue result ↔ Same (changed_at place.entry (t.Call 0 function.now (terms_of args.now))) (term_of other.now) }
{
    match &other.form {
        Form::Call(name, others) => { same_name(function, name) && same_all(place, args, others) }
        _ => false,
    }
}

/// Whether the other expression is the changed condition with its branches.
#[cycle(same)]
pub fn same_if<'s, 'a>(
    place: Changing<'s, 'a>,
    a: &'a Expr,
    b: &'a Expr,
    c: &'a Expr,
    other: &Expr,
) -> bool
    ensures { IsTrue result ↔ Same (changed_at place.entry (t.If 0 (term_of a.now) (term_of b.now) (term_of c.now))) (term_of other.now) }
{
    match &other.form {
        Form::If(d, f, g) => { same(place, a, d) && same(place, b, f) && same(place, c, g) }
        _ => false,
    }
}

/// Whether the other expression is the changed tick.
#[cycle(same)]
pub fn same_tick<'s, 'a>(place: Changing<'s, 'a>, ticks: u32, a: &'a Expr, other: &Expr) -> bool
    ensures { IsTrue result ↔ Same (changed_at place.entry (t.Tick 0 ticks (term_of a.now))) (term_of other.now) }
{
    match &other.form {
        Form::Tick(other_ticks, b) => { ticks == *other_ticks && same(place, a, b) }
        _ => false,
    }
}

/// Whether the other expression is the changed one with its type.
#[cycle(same)]
pub fn same_typed<'s, 'a>(place: Changing<'s, 'a>, a: &'a Expr, ty: &Ty, other: &Expr) -> bool
    ensures { IsTrue result ↔ Same (changed_at place.entry (t.Typed 0 (term_of a.now) (ty_of ty.now))) (term_of other.now) }
{
    match &other.form {
        Form::Typed(b, other_ty) => { same(place, a, b) && ty.same(other_ty) }
        _ => false,
    }
}
