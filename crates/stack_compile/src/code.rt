// The code of a program.
ghost use Rattle.std.specs.Prelude.{◌≡◌, ◌≤◌, ◌<◌, ◌+◌, ◌^◌, ◌++◌, IfOk, OnOk, Some, length, map, vec_len, slice_get};
ghost use Rattle.std.specs.List.{All};
ghost use Rattle.raml_syntax.specs.Tree.{Function};
ghost use Rattle.raml_syntax.specs.Types as types;
ghost use Rattle.raml_syntax.specs.Node.{nodes, program_nodes, AllNodes, NumberFits};
ghost use Rattle.raml_syntax.specs.Read.{program_of, function_of, term_of};
ghost use Rattle.simple_types.specs.Small.{IsSmall};
ghost use Rattle.stack_compile.specs.Code.{body_of, bodies_of};
ghost use Rattle.stack_compile.specs.Emit.{below_all, size, NumbersFit, HasRoom};
ghost use Rattle.stack_compile.specs.Read.{body_in, code_at};

use crate::emit::{emit, put};
use crate::instr::Instr;
use crate::scope::{Env, Scope};
use raml_syntax::{Expr, Fun, FunId, FunctionNames, Param, Program};
use simple_types::Typed;
use std::alloc::{AllocError, Global};
use std::marker::Model;

/// How many parameters a function has, and its instructions.
#[derive(Debug, Drop)]
pub struct Body {
    pub arity: u32,
    pub code: Vec<Instr>,
}

/// The code of a typed program, which it keeps.
#[derive(Drop)]
pub struct Code<'a> {
    typed: &'a Typed,
    bodies: Vec<Body>,
}

impl<'a> Model for Code<'a> {
    ghost use Rattle.std.specs.Prelude.{map};
    ghost use Rattle.std.specs.Coded.{codes};
    ghost use Rattle.raml_syntax.specs.declared.program.Program.{Program};
    ghost use Rattle.raml_syntax.specs.Read.{program_of};
    ghost use Rattle.raml_syntax.specs.contracts.ty.Ty as ty;
    ghost use Rattle.raml_syntax.specs.contracts.tree.Form as form;
    ghost use Rattle.raml_syntax.specs.contracts.tree.Expr as expr;
    ghost use Rattle.stack_compile.specs.Read.{body_in};
    ghost use Rattle.stack_compile.specs.Kept.{IsCode};

    ghost Value = { Program };

    ghost coded = { Prim.hlevel (codes, ty.the_row.coded, form.the_row.coded, expr.the_row.coded) };

    ghost view = { λ code. code.typed.now };

    ghost invariant = { λ code. IsCode (program_of code.typed.now) (map body_in code.bodies.items) };
}

impl<'a> Code<'a> {
    /// The program.
    pub fn program(&self) -> &Program
        ensures program { result.now ≡ self.now }
        ensures typed { types.Typed (program_of self.now) }
        ensures small { IsSmall (program_of self.now) }
        ensures numbers { All (λ (g : Function). AllNodes NumberFits g.body) (program_of self.now) }
    {
        self.typed.program()
    }

    /// How many functions there are.
    pub fn len(&self) -> usize
        ensures { result ≡ length (program_of self.now) }
    {
        self.bodies.len()
    }

    /// A function of the program: how many parameters it has, and its instructions.
    pub fn function(&self, fun: FunId) -> &Body
        requires { fun.0 < length (program_of self.now) }
        ensures { slice_get (bodies_of (program_of self.now)) fun.0 ≡ Some (body_in result.now) }
    {
        &self.bodies[fun.0 as usize]
    }

    /// The instructions of a function of the program.
    pub fn body(&self, fun: FunId) -> &[Instr]
        requires { fun.0 < length (program_of self.now) }
        ensures { code_at (bodies_of (program_of self.now)) fun.0 ≡ result.now }
    {
        &self.function(fun).code
    }
}

/// Appends the code of a body below its parameters, of which some are bound already.
fn emit_below<'s, 'a>(
    code: &mut Vec<Instr>,
    env: Env<'s, 'a>,
    params: &'a [Param],
    e: &'a Expr,
) -> Result<(), AllocError>
    requires { HasRoom env (length params.now) (vec_len code.old) (size e.now) }
    ensures code { OnOk result (code.new.items ≡ code.old.items ++ below_all env.entry params.now e.now (vec_len code.old)) }
    ensures numbers { OnOk result (NumbersFit e.now) }
{
    match params {
        [] => emit(code, env, e),
        [param, rest @ ..] => {
            let scope = Scope::Bound {
                name: &param.name,
                outer: env.scope,
            };
            let functions = env.functions;
            let inner = Env {
                functions,
                scope: &scope,
                depth: env.depth + 1,
            };
            emit_below(code, inner, rest, e)
        }
    }
}

/// The code of a function.
fn compile_function<'a>(
    alloc: Global,
    functions: &FunctionNames<'a>,
    fun: &'a Fun,
) -> Result<Body, AllocError>
    requires parameters { length (function_of fun.now).params ≤ 8 }
    requires nodes { nodes (term_of fun.now.body) < 2 ^ 28 }
    ensures body { IfOk result (λ body. body_in body ≡ body_of (program_of functions.now.program.now) (function_of fun.now)) }
    ensures numbers { OnOk result (AllNodes NumberFits (term_of fun.now.body)) }
{
    let mut code = Vec::new(alloc);
    let scope = Scope::Empty;
    let env = Env {
        functions,
        scope: &scope,
        depth: 0,
    };
    emit_below(&mut code, env, &fun.params, &fun.body)?;
    put(&mut code, Instr::Return)?;
    let arity = fun.params.len() as u32;
    Ok(Body { arity, code })
}

/// The codes of functions of the program in order.
fn compile_all<'a>(
    alloc: Global,
    functions: &FunctionNames<'a>,
    funs: &'a [Fun],
) -> Result<Vec<Body>, AllocError>
    requires parameters { All (λ (g : Function). length g.params ≤ 8) (map function_of funs.now) }
    requires nodes { program_nodes (map function_of funs.now) < 2 ^ 28 }
    ensures bodies { IfOk result
        (λ bodies. map body_in bodies.items ≡ map (body_of (program_of functions.now.program.now)) (map function_of funs.now)) }
    ensures numbers { OnOk result (All (λ (g : Function). AllNodes NumberFits g.body) (map function_of funs.now)) }
{
    let mut bodies = Vec::new(alloc);
    for fun in funs {
        bodies.push(compile_function(alloc, functions, fun)?)?;
    }
    Ok(bodies)
}

/// Compiles a typed program. Only memory can be wanting.
pub fn compile<'a>(alloc: Global, typed: &'a Typed) -> Result<Code<'a>, AllocError>
    requires nodes { program_nodes (program_of typed.now) < 2 ^ 28 }
    ensures { IfOk result (λ code. code ≡ typed.now) }
{
    let program = typed.program();
    let functions = FunctionNames::new(alloc, program)?;
    let bodies = compile_all(alloc, &functions, &program.funs)?;
    Ok(Code { typed, bodies })
}
