// The code of expressions. Jumps are written once the code that they pass is there.
ghost use Rattle.std.specs.Prelude.{◌≡◌, ◌≤◌, ◌+◌, ◌*◌, [], ◌∷◌, ◌++◌, length, OnOk, vec_len};
ghost use Rattle.raml_syntax.specs.Read.{program_of, terms_of};
ghost use Rattle.raml_syntax.specs.Node.{nodes_of_all, AllOf, NumberFits};
ghost use Rattle.stack_compile.specs.Code as c;
ghost use Rattle.stack_compile.specs.Code.{fun_of, one, seq, fork};
ghost use Rattle.stack_compile.specs.Emit.{here, below, bound_in, leave_of, size, NumbersFit, HasRoom, Appended, binders, arguments_in};
ghost use Rattle.stack_compile.specs.Emit.{call_in, let_in, match_in, node_in};
ghost use Rattle.stack_compile.specs.declared.instr.Instr.TheVariants.{Branch, Tick};

use crate::instr::Instr;
use crate::scope::{Env, Scope};
use raml_syntax::{ArithOp, Binder, Expr, Form, FunId, FunctionNames, Name};
use std::alloc::AllocError;

/// Appends an instruction.
pub fn put(code: &mut Vec<Instr>, instr: Instr) -> Result<(), AllocError>
    ensures items { OnOk result (code.new.items ≡ code.old.items ++ instr ∷ []) }
    ensures len { OnOk result (vec_len code.new ≡ vec_len code.old + 1) }
{
    code.push(instr)?;
    Ok(())
}

/// The instruction of an operator.
fn arith_code(op: ArithOp) -> Instr
    ensures { result ≡ c.arith_code op }
{
    match op {
        ArithOp::Add => Instr::Add,
        ArithOp::Sub => Instr::Sub,
        ArithOp::Mul => Instr::Mul,
        ArithOp::Div => Instr::Div,
        ArithOp::Mod => Instr::Mod,
    }
}

/// What a match takes apart.
#[derive(Clone, Copy)]
enum Case {
    List,
    Tree,
    Option,
}

impl Case {
    /// The instruction that leaves for a place where there is nothing to take apart.
    fn leave(self, to: u32) -> Instr
        ensures { result ≡ leave_of self to }
    {
        match self {
            Case::List => Instr::CaseList(to),
            Case::Tree => Instr::CaseTree(to),
            Case::Option => Instr::CaseOption(to),
        }
    }
}

/// Appends the code of an expression.
#[cycle(emit)]
pub fn emit<'s, 'a>(code: &mut Vec<Instr>, env: Env<'s, 'a>, e: &'a Expr) -> Result<(), AllocError>
    requires { HasRoom env 0 (vec_len code.old) (size e.now) }
    ensures code { OnOk result (Appended (here env.entry e.now) code.old code.new) }
    ensures short { OnOk result (vec_len code.new ≤ vec_len code.old + 4 * (size e.now)) }
    ensures numbers { OnOk result (NumbersFit e.now) }
{
    match &e.form {
        Form::Number(n) => put(code, Instr::Int(*n)),
        Form::Truth(b) => put(code, Instr::Bool(*b)),
        Form::Nil => put(code, Instr::Empty),
        Form::Leaf => put(code, Instr::Empty),
        Form::Nothing => put(code, Instr::Empty),
        Form::Var(name) => put(code, Instr::Load(env.scope.find(name.text(), env.depth))),
        Form::Arith(op, left, right) => emit_two(code, env, left, right, arith_code(*op)),
        Form::Compare(op, left, right) => emit_two(code, env, left, right, Instr::Compare(*op)),
        Form::Not(part) => emit_one(code, env, part, Instr::Not),
        Form::Pair(first, second) => emit_two(code, env, first, second, Instr::Pair),
        Form::Cons(head, tail) => emit_two(code, env, head, tail, Instr::Cons),
        Form::Node(element, left, right) => emit_node(code, env, element, left, right),
        Form::Just(part) => emit_one(code, env, part, Instr::Some),
        Form::Call(name, args) => emit_call(code, env, name, args),
        Form::Let(x, bound, rest) => emit_let(code, env, bound, Instr::Bind, &[x], rest),
        Form::LetPair(x, y, bound, rest) => {
            emit_let(code, env, bound, Instr::Unpair, &[x, y], rest)
        }
        Form::If(condition, yes, no) => emit_if(code, env, condition, yes, no),
        Form::MatchList(subject, empty, x, y, rest) => {
            emit_match(code, env, subject, Case::List, &[x, y], rest, empty)
        }
        Form::MatchTree(subject, empty, x, y, z, rest) => {
            emit_match(code, env, subject, Case::Tree, &[x, y, z], rest, empty)
        }
        Form::MatchOption(subject, empty, x, rest) => {
            emit_match(code, env, subject, Case::Option, &[x], rest, empty)
        }
        Form::Tick(n, rest) => emit_tick(code, env, *n, rest),
        Form::Typed(part, _) => emit(code, env, part),
    }
}

/// Appends the code of a part, and the instruction that takes it.
#[cycle(emit)]
fn emit_one<'s, 'a>(
    code: &mut Vec<Instr>,
    env: Env<'s, 'a>,
    part: &'a Expr,
    last: Instr,
) -> Result<(), AllocError>
    requires { HasRoom env 0 (vec_len code.old) (1 + size part.now) }
    ensures code { OnOk result (Appended (seq (here env.entry part.now) (one last)) code.old code.new) }
    ensures short { OnOk result (vec_len code.new ≤ vec_len code.old + 4 * (1 + size part.now)) }
    ensures numbers { OnOk result (NumbersFit part.now) }
{
    emit(code, env, part)?;
    put(code, last)
}

/// Appends the code of two parts in order, and the instruction that takes both.
#[cycle(emit)]
fn emit_two<'s, 'a>(
    code: &mut Vec<Instr>,
    env: Env<'s, 'a>,
    left: &'a Expr,
    right: &'a Expr,
    last: Instr,
) -> Result<(), AllocError>
    requires { HasRoom env 0 (vec_len code.old) (1 + size left.now + size right.now) }
    ensures code { OnOk result (Appended (seq (here env.entry left.now) (seq (here env.entry right.now) (one last))) code.old code.new) }
    ensures short { OnOk result (vec_len code.new ≤ vec_len code.old + 4 * (1 + size left.now + size right.now)) }
    ensures numbers { OnOk result (NumbersFit left.now × NumbersFit right.now) }
{
    emit(code, env, left)?;
    emit(code, env, right)?;
    put(code, last)
}

/// Appends the code of a node of a tree.
#[cycle(emit)]
fn emit_node<'s, 'a>(
    code: &mut Vec<Instr>,
    env: Env<'s, 'a>,
    element: &'a Expr,
    left: &'a Expr,
    right: &'a Expr,
) -> Result<(), AllocError>
    requires { HasRoom env 0 (vec_len code.old) (1 + size element.now + size left.now + size right.now) }
    ensures code { OnOk result (Appended (node_in env.entry element.now left.now right.now) code.old code.new) }
    ensures short { OnOk result (vec_len code.new ≤ vec_len code.old + 4 * (1 + size element.now + size left.now + size right.now)) }
    ensures numbers { OnOk result (NumbersFit element.now × NumbersFit left.now × NumbersFit right.now) }
{
    emit(code, env, element)?;
    emit_two(code, env, left, right, Instr::Node)
}

/// Appends the codes of arguments in order.
#[cycle(emit)]
fn emit_all<'s, 'a>(
    code: &mut Vec<Instr>,
    env: Env<'s, 'a>,
    args: &'a [Expr],
) -> Result<(), AllocError>
    requires { HasRoom env 0 (vec_len code.old) (nodes_of_all (terms_of args.now)) }
    ensures code { OnOk result (Appended (arguments_in env.entry args.now) code.old code.new) }
    ensures short { OnOk result (vec_len code.new ≤ vec_len code.old + 4 * (nodes_of_all (terms_of args.now))) }
    ensures numbers { OnOk result (AllOf NumberFits (terms_of args.now)) }
{
    for arg in args {
        emit(code, env, arg)?;
    }
    Ok(())
}

/// The function of this name. A typed program calls no other; for one that is not there it is the first.
fn callee(functions: &FunctionNames, name: &str) -> FunId
    ensures { result ≡ fun_of name.now (program_of functions.now.program.now) }
{
    functions.find(name).unwrap_or(FunId(0))
}

/// Appends the code of a call.
#[cycle(emit)]
fn emit_call<'s, 'a>(
    code: &mut Vec<Instr>,
    env: Env<'s, 'a>,
    name: &'a Name,
    args: &'a [Expr],
) -> Result<(), AllocError>
    requires { HasRoom env 0 (vec_len code.old) (1 + nodes_of_all (terms_of args.now)) }
    ensures code { OnOk result (Appended (call_in env.entry name.now args.now) code.old code.new) }
    ensures short { OnOk result (vec_len code.new ≤ vec_len code.old + 4 * (1 + nodes_of_all (terms_of args.now))) }
    ensures numbers { OnOk result (AllOf NumberFits (terms_of args.now)) }
{
    emit_all(code, env, args)?;
    put(code, Instr::Call(callee(env.functions, name.text())))
}

/// Appends the code of an expression below more locals.
#[cycle(emit)]
fn emit_below<'s, 'a>(
    code: &mut Vec<Instr>,
    env: Env<'s, 'a>,
    names: &[&'a Binder],
    e: &'a Expr,
) -> Result<(), AllocError>
    requires { HasRoom env (length names.now) (vec_len code.old) (size e.now) }
    ensures code { OnOk result (Appended (below env.entry (binders names.now) e.now) code.old code.new) }
    ensures short { OnOk result (vec_len code.new ≤ vec_len code.old + 4 * (size e.now)) }
    ensures numbers { OnOk result (NumbersFit e.now) }
{
    match names {
        [] => emit(code, env, e),
        [first, rest @ ..] => {
            let scope = Scope::Bound {
                name: &first.name,
                outer: env.scope,
            };
            let functions = env.functions;
            let inner = Env {
                functions,
                scope: &scope,
                depth: env.depth + 1,
            };
            emit_below(code, inner, rest, e)
        }
    }
}

/// Appends the code of an expression below at most three more locals, and their end.
#[cycle(emit)]
fn emit_bound<'s, 'a>(
    code: &mut Vec<Instr>,
    env: Env<'s, 'a>,
    names: &[&'a Binder],
    e: &'a Expr,
) -> Result<(), AllocError>
    requires few { length names.now ≤ 3 }
    requires room { HasRoom env 3 (vec_len code.old) (size e.now) }
    ensures code { OnOk result (Appended (bound_in env.entry (binders names.now) e.now) code.old code.new) }
    ensures short { OnOk result (vec_len code.new ≤ vec_len code.old + 4 * size e.now + 1) }
    ensures numbers { OnOk result (NumbersFit e.now) }
{
    emit_below(code, env, names, e)?;
    put(code, Instr::Unbind(names.len() as u32))
}

/// Appends the code of what is bound, the instruction that binds it, and the code below its names.
#[cycle(emit)]
fn emit_let<'s, 'a>(
    code: &mut Vec<Instr>,
    env: Env<'s, 'a>,
    bound: &'a Expr,
    bind: Instr,
    names: &[&'a Binder],
    rest: &'a Expr,
) -> Result<(), AllocError>
    requires few { length names.now ≤ 3 }
    requires room { HasRoom env 0 (vec_len code.old) (1 + size bound.now + size rest.now) }
    ensures code { OnOk result (Appended (let_in env.entry bind (binders names.now) bound.now rest.now) code.old code.new) }
    ensures short { OnOk result (vec_len code.new ≤ vec_len code.old + 4 * (1 + size bound.now + size rest.now)) }
    ensures numbers { OnOk result (NumbersFit bound.now × NumbersFit rest.now) }
{
    emit(code, env, bound)?;
    put(code, bind)?;
    emit_bound(code, env, names, rest)
}

/// Appends the code of `if condition then yes else no`.
#[cycle(emit)]
fn emit_if<'s, 'a>(
    code: &mut Vec<Instr>,
    env: Env<'s, 'a>,
    condition: &'a Expr,
    yes: &'a Expr,
    no: &'a Expr,
) -> Result<(), AllocError>
    requires { HasRoom env 0 (vec_len code.old) (1 + size condition.now + size yes.now + size no.now) }
    ensures code { OnOk result
        (Appended (fork (here env.entry condition.now) Branch (here env.entry yes.now) (here env.entry no.now)) code.old code.new) }
    ensures short { OnOk result (vec_len code.new ≤ vec_len code.old + 4 * (1 + size condition.now + size yes.now + size no.now)) }
    ensures numbers { OnOk result (NumbersFit condition.now × NumbersFit yes.now × NumbersFit no.now) }
{
    emit(code, env, condition)?;
    let leave = code.len();
    put(code, Instr::Branch(0))?;
    emit(code, env, yes)?;
    let jump = code.len();
    put(code, Instr::Jump(0))?;
    emit(code, env, no)?;
    code[leave] = Instr::Branch(jump as u32 + 1);
    code[jump] = Instr::Jump(code.len() as u32);
    Ok(())
}

/// Appends the code of a match, the part for what is taken apart first.
#[cycle(emit)]
fn emit_match<'s, 'a>(
    code: &mut Vec<Instr>,
    env: Env<'s, 'a>,
    subject: &'a Expr,
    case: Case,
    names: &[&'a Binder],
    part: &'a Expr,
    empty: &'a Expr,
) -> Result<(), AllocError>
    requires few { length names.now ≤ 3 }
    requires room { HasRoom env 0 (vec_len code.old) (1 + size subject.now + size empty.now + size part.now) }
    ensures code { OnOk result (Appended (match_in env.entry case (binders names.now) subject.now part.now empty.now) code.old code.new) }
    ensures short { OnOk result (vec_len code.new ≤ vec_len code.old + 4 * (1 + size subject.now + size empty.now + size part.now)) }
    ensures numbers { OnOk result (NumbersFit subject.now × NumbersFit empty.now × NumbersFit part.now) }
{
    emit(code, env, subject)?;
    let leave = code.len();
    put(code, case.leave(0))?;
    emit_bound(code, env, names, part)?;
    let jump = code.len();
    put(code, Instr::Jump(0))?;
    emit(code, env, empty)?;
    code[leave] = case.leave(jump as u32 + 1);
    code[jump] = Instr::Jump(code.len() as u32);
    Ok(())
}

/// Appends the code of `tick n in rest`.
#[cycle(emit)]
fn emit_tick<'s, 'a>(
    code: &mut Vec<Instr>,
    env: Env<'s, 'a>,
    n: u32,
    rest: &'a Expr,
) -> Result<(), AllocError>
    requires { HasRoom env 0 (vec_len code.old) (1 + size rest.now) }
    ensures code { OnOk result (Appended (seq (one (Tick n)) (here env.entry rest.now)) code.old code.new) }
    ensures short { OnOk result (vec_len code.new ≤ vec_len code.old + 4 * (1 + size rest.now)) }
    ensures numbers { OnOk result (NumbersFit rest.now) }
{
    put(code, Instr::Tick(n))?;
    emit(code, env, rest)
}
