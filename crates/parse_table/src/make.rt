// Trees from their parts.
ghost use Rattle.std.specs.Prelude.{◌≡◌, ◌++◌, [], ◌∷◌, IfOk};
ghost use Rattle.raml_syntax.specs.Tree as t;
ghost use Rattle.raml_syntax.specs.Read.{term_of, terms_of, ty_of, bound_of, parameter_of};
ghost use Rattle.parse_table.specs.Table.{Phrase, Typing, At, call_act, function_act};
ghost use Rattle.parse_table.specs.Forms.{infix_act};
ghost use Rattle.parse_table.specs.Read.{named_part, term_in, headers_back, phrases_back, headed, bound_at};

use crate::form::Infix;
use crate::take::NameAt;
use raml_syntax::{Binder, Expr, Form, Fun, Name, Param, Pos, Ty};
use std::alloc::{AllocError, Global};

pub fn number(at: Pos, value: i64) -> Expr
    ensures { term_of result ≡ t.Number at.0 value }
{
    Expr {
        at,
        form: Form::Number(value),
    }
}

pub fn truth(at: Pos, value: bool) -> Expr
    ensures { term_of result ≡ t.Truth at.0 value }
{
    Expr {
        at,
        form: Form::Truth(value),
    }
}

pub fn nil(at: Pos) -> Expr
    ensures { term_of result ≡ t.Nil at.0 }
{
    Expr {
        at,
        form: Form::Nil,
    }
}

pub fn leaf(at: Pos) -> Expr
    ensures { term_of result ≡ t.Leaf at.0 }
{
    Expr {
        at,
        form: Form::Leaf,
    }
}

/// `none`.
pub fn nothing(at: Pos) -> Expr
    ensures { term_of result ≡ t.Nothing at.0 }
{
    Expr {
        at,
        form: Form::Nothing,
    }
}

pub fn variable(alloc: Global, at: Pos, name: &str) -> Result<Expr, AllocError>
    ensures { IfOk result (λ e. term_of e ≡ t.Var at.0 name.now) }
{
    Ok(Expr {
        at,
        form: Form::Var(Name::new(alloc, name)?),
    })
}

fn call_of(at: Pos, function: Name, args: Vec<Expr>) -> Expr
    ensures { term_of result ≡ t.Call at.0 function (terms_of args.items) }
{
    Expr {
        at,
        form: Form::Call(function, args),
    }
}

#[tactic(auto, using(crate::proofs::Parts::call_is))]
pub fn call(alloc: Global, at: Pos, function: &str, args: Vec<Expr>) -> Result<Expr, AllocError>
    ensures { IfOk result (λ e. call_act function.now (phrases_back args.items ++ At at.0 ∷ []) ≡ Phrase (term_of e)) }
{
    Ok(call_of(at, Name::new(alloc, function)?, args))
}

pub fn node(at: Pos, element: Box<Expr>, left: Box<Expr>, right: Box<Expr>) -> Expr
    ensures { term_of result ≡ t.Node at.0 (term_in element) (term_in left) (term_in right) }
{
    Expr {
        at,
        form: Form::Node(element, left, right),
    }
}

/// `some` of its content.
pub fn just(at: Pos, content: Box<Expr>) -> Expr
    ensures { term_of result ≡ t.Just at.0 (term_in content) }
{
    Expr {
        at,
        form: Form::Just(content),
    }
}

pub fn negation(at: Pos, operand: Box<Expr>) -> Expr
    ensures { term_of result ≡ t.Not at.0 (term_in operand) }
{
    Expr {
        at,
        form: Form::Not(operand),
    }
}

pub fn pair(at: Pos, first: Box<Expr>, second: Box<Expr>) -> Expr
    ensures { term_of result ≡ t.Pair at.0 (term_in first) (term_in second) }
{
    Expr {
        at,
        form: Form::Pair(first, second),
    }
}

pub fn typed(at: Pos, expr: Box<Expr>, ty: Box<Ty>) -> Expr
    ensures { term_of result ≡ t.Typed at.0 (term_in expr) (ty_of ty.value) }
{
    Expr {
        at,
        form: Form::Typed(expr, Box::into_inner(ty)),
    }
}

fn binder(alloc: Global, name: NameAt) -> Result<Binder, AllocError>
    ensures { IfOk result (λ x. bound_of x ≡ bound_at name.entry) }
{
    Ok(Binder {
        at: name.at,
        name: Name::new(alloc, name.name)?,
    })
}

/// `let x = bound in rest`.
pub fn binding(
    alloc: Global,
    at: Pos,
    x: NameAt,
    bound: Box<Expr>,
    rest: Box<Expr>,
) -> Result<Expr, AllocError>
    ensures { IfOk result (λ e. term_of e ≡ t.Let at.0 (bound_at x.entry) (term_in bound) (term_in rest)) }
{
    let x = binder(alloc, x)?;
    Ok(Expr {
        at,
        form: Form::Let(x, bound, rest),
    })
}

/// `let (x, y) = bound in rest`.
pub fn pair_binding(
    alloc: Global,
    at: Pos,
    x: NameAt,
    y: NameAt,
    bound: Box<Expr>,
    rest: Box<Expr>,
) -> Result<Expr, AllocError>
    ensures { IfOk result (λ e. term_of e ≡ t.LetPair at.0 (bound_at x.entry) (bound_at y.entry) (term_in bound) (term_in rest)) }
{
    let x = binder(alloc, x)?;
    let y = binder(alloc, y)?;
    Ok(Expr {
        at,
        form: Form::LetPair(x, y, bound, rest),
    })
}

pub fn choice(at: Pos, condition: Box<Expr>, first: Box<Expr>, second: Box<Expr>) -> Expr
    ensures { term_of result ≡ t.If at.0 (term_in condition) (term_in first) (term_in second) }
{
    Expr {
        at,
        form: Form::If(condition, first, second),
    }
}

/// The cases of a list: where it is empty, and where it has a head and a tail.
pub fn list_cases(
    alloc: Global,
    at: Pos,
    subject: Box<Expr>,
    empty: Box<Expr>,
    head: NameAt,
    tail: NameAt,
    rest: Box<Expr>,
) -> Result<Expr, AllocError>
    ensures { IfOk result (λ e. term_of e
        ≡ t.MatchList at.0 (term_in subject) (term_in empty) (bound_at head.entry) (bound_at tail.entry) (term_in rest)) }
{
    let head = binder(alloc, head)?;
    let tail = binder(alloc, tail)?;
    Ok(Expr {
        at,
        form: Form::MatchList(subject, empty, head, tail, rest),
    })
}

/// The cases of a tree: where it is empty, and where it has an element, a left and a right tree.
pub fn tree_cases(
    alloc: Global,
    at: Pos,
    subject: Box<Expr>,
    empty: Box<Expr>,
    element: NameAt,
    left: NameAt,
    right: NameAt,
    rest: Box<Expr>,
) -> Result<Expr, AllocError>
    ensures { IfOk result (λ e. term_of e
        ≡ t.MatchTree at.0 (term_in subject) (term_in empty) (bound_at element.entry)
        (bound_at left.entry) (bound_at right.entry) (term_in rest)) }
{
    let element = binder(alloc, element)?;
    let left = binder(alloc, left)?;
    let right = binder(alloc, right)?;
    Ok(Expr {
        at,
        form: Form::MatchTree(subject, empty, element, left, right, rest),
    })
}

/// The cases of an option: where it is `none`, and where it has a content.
pub fn option_cases(
    alloc: Global,
    at: Pos,
    subject: Box<Expr>,
    empty: Box<Expr>,
    content: NameAt,
    rest: Box<Expr>,
) -> Result<Expr, AllocError>
    ensures { IfOk result (λ e. term_of e ≡ t.MatchOption at.0 (term_in subject) (term_in empty) (bound_at content.entry) (term_in rest)) }
{
    let content = binder(alloc, content)?;
    Ok(Expr {
        at,
        form: Form::MatchOption(subject, empty, content, rest),
    })
}

pub fn tick(at: Pos, count: u32, body: Box<Expr>) -> Expr
    ensures { term_of result ≡ t.Tick at.0 count (term_in body) }
{
    Expr {
        at,
        form: Form::Tick(count, body),
    }
}

/// An operator with its operands.
pub fn operation(at: Pos, operator: Infix, left: Box<Expr>, right: Box<Expr>) -> Expr
    ensures { infix_act operator (Phrase (term_in right) ∷ Phrase (term_in left) ∷ At at.0 ∷ []) ≡ Phrase (term_of result) }
{
    let form = match operator {
        Infix::Arith(op) => Form::Arith(op, left, right),
        Infix::Cons => Form::Cons(left, right),
        Infix::Compare(op) => Form::Compare(op, left, right),
    };
    Expr { at, form }
}

pub fn parameter(alloc: Global, parameter: NameAt, ty: Box<Ty>) -> Result<Param, AllocError>
    ensures { IfOk result (λ p. parameter_of p
        ≡ record { at = parameter.entry.at.0; name = parameter.entry.name.now; type = ty_of ty.value }) }
{
    Ok(Param {
        at: parameter.at,
        name: Name::new(alloc, parameter.name)?,
        ty: Box::into_inner(ty),
    })
}

/// A function whose `fun` stands at `at`.
#[tactic(auto, using(crate::proofs::Parts::function_is))]
pub fn function(
    alloc: Global,
    at: Pos,
    function: NameAt,
    params: Vec<Param>,
    ty: Box<Ty>,
    body: Box<Expr>,
) -> Result<Fun, AllocError>
    ensures is { IfOk result
        (λ f. function_act (Phrase (term_in body) ∷ Typing (ty_of ty.value) ∷
        (headers_back params.items ++ named_part function.entry ∷ [])) ≡ headed f) }
    ensures place { IfOk result (λ f. f.at ≡ at) }
    ensures params { IfOk result (λ f. f.params ≡ params) }
{
    Ok(Fun {
        at,
        name: Name::new(alloc, function.name)?,
        params,
        result: Box::into_inner(ty),
        body: Box::into_inner(body),
    })
}
