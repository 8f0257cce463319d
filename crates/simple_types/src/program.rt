// The check of a program.
ghost use Rattle.std.specs.Prelude.{◌≡◌, ◌≤◌, IfOk, IfErr, IsSome, length, map};
ghost use Rattle.std.specs.List.{All, list_any};
ghost use Rattle.std.specs.Str.{bytes_eq};
ghost use Rattle.raml_syntax.specs.Tree.{Function};
ghost use Rattle.raml_syntax.specs.Types as types;
ghost use Rattle.raml_syntax.specs.Node.{AllNodes, FewArguments};
ghost use Rattle.raml_syntax.specs.Read.{program_of, function_of, parameter_of, term_of};
ghost use Rattle.simple_types.specs.Headers.{names_in};
ghost use Rattle.simple_types.specs.Small.{IsSmall};
ghost use Rattle.simple_types.specs.Read.{EndsWith, Leaves, Passes, fault_of};
ghost use Rattle.simple_types.specs.Walk.{distinct, parameter_name, walk_headers, walk_program};
ghost use Rattle.simple_types.specs.Table.{base};
ghost use Rattle.simple_types.specs.Numbered as numbered;
ghost use Rattle.simple_types.specs.Scope.{ids_of, sigs_of};

use crate::fault::TypeFault;
use crate::functions::Functions;
use crate::scope::Scope;
use crate::types::Types;
use crate::walk::{Env, walk};
use raml_syntax::{Fun, Param, Program};
use std::alloc::Global;
use std::marker::Model;

/// A typed program, with few functions, parameters and arguments.
#[derive(Drop)]
pub struct Typed {
    program: Program,
}

impl Model for Typed {
    ghost use Rattle.raml_syntax.specs.declared.program.Program.{Program};
    ghost use Rattle.raml_syntax.specs.Types as types;
    ghost use Rattle.raml_syntax.specs.Read.{program_of};
    ghost use Rattle.std.specs.Coded.{codes};
    ghost use Rattle.raml_syntax.specs.contracts.ty.Ty as ty;
    ghost use Rattle.raml_syntax.specs.contracts.tree.Form as form;
    ghost use Rattle.raml_syntax.specs.contracts.tree.Expr as expr;
    ghost use Rattle.simple_types.specs.Small.{IsSmall};

    ghost Value = { Program };

    ghost coded = { Prim.hlevel (codes, ty.the_row.coded, form.the_row.coded, expr.the_row.coded) };

    ghost view = { λ typed. typed.program };

    ghost invariant = { λ typed. types.Typed (program_of typed.program) × IsSmall (program_of typed.program) };
}

impl Typed {
    /// The program.
    pub fn program(&self) -> &Program
        ensures program { result.now ≡ self.now }
        ensures typed { types.Typed (program_of self.now) }
        ensures small { IsSmall (program_of self.now) }
    {
        &self.program
    }
}

/// Whether the name is that of one of the parameters.
fn stands_in(name: &str, params: &[Param]) -> bool
    ensures { result ≡ list_any (bytes_eq name.now) (names_in params.now) }
{
    for param in params {
        if name == param.name.text() {
            return true;
        }
    }
    false
}

/// Tells whether the names of all parameters differ.
fn differ(params: &[Param]) -> Result<(), TypeFault>
    ensures { Passes (distinct (map parameter_name (map parameter_of params.now))) result }
{
    for i in 0..params.len() {
        let param = &params[i];
        if stands_in(param.name.text(), &params[..i]) {
            return Err(TypeFault::Twice { at: param.at });
        }
    }
    Ok(())
}

/// Checks the parameters of functions in order.
fn check_headers(funs: &[Fun]) -> Result<(), TypeFault>
    ensures { Passes (walk_headers (map function_of funs.now)) result }
{
    for fun in funs {
        differ(&fun.params)?;
    }
    Ok(())
}

/// Checks a body below its parameters, of which some are bound already, against the type of its
/// function's result.
fn check_below<'s, 'a>(
    types: &mut Types,
    env: Env<'s, 'a>,
    params: &'a [Param],
    fun: &'a Fun,
) -> Result<(), TypeFault>
    requires few { AllNodes FewArguments (term_of fun.now.body) }
    ensures { Leaves (numbered.walk_body (sigs_of env.entry.functions.now) types.old.nodes.keys (ids_of env.entry.scope.now)
        (map parameter_of params.now) (function_of fun.now)) types.new.nodes.keys result }
{
    match params {
        [] => {
            let result = types.intern(&fun.result)?;
            walk(types, env, &fun.body, Some(result))?;
            Ok(())
        }
        [param, rest @ ..] => {
            let ty = types.intern(&param.ty)?;
            let scope = Scope::Bound {
                name: &param.name,
                ty,
                outer: env.scope,
            };
            let functions = env.functions;
            check_below(
                types,
                Env {
                    functions,
                    scope: &scope,
                },
                rest,
                fun,
            )
        }
    }
}

/// Checks the bodies of functions of the program in order.
fn check_bodies<'a>(
    types: &mut Types,
    functions: &Functions<'a>,
    funs: &'a [Fun],
) -> Result<(), TypeFault>
    requires few { All (λ (g : Function). AllNodes FewArguments g.body) (map function_of funs.now) }
    ensures { Leaves (numbered.walk_bodies (sigs_of functions.now) types.old.nodes.keys
        (map function_of funs.now)) types.new.nodes.keys result }
{
    for fun in funs {
        let scope = Scope::Empty;
        let env = Env {
            functions,
            scope: &scope,
        };
        check_below(types, env, &fun.params, fun)?;
    }
    Ok(())
}

/// Checks the names of functions, then the parameters, then the bodies.
fn check_names_and_bodies(
    alloc: Global,
    types: &mut Types,
    program: &Program,
) -> Result<(), TypeFault>
    requires base { types.old.nodes.keys ≡ base }
    requires few_parameters { All (λ (g : Function). length g.params ≤ 8) (program_of program.now) }
    requires few_arguments { All (λ (g : Function). AllNodes FewArguments g.body) (program_of program.now) }
    ensures { Leaves (numbered.walk_program (program_of program.now)) types.new.nodes.keys result }
{
    let functions = Functions::new(alloc, types, program)?;
    check_headers(&program.funs)?;
    check_bodies(types, &functions, &program.funs)
}

/// Checks a program, with a table of types of its own.
fn check_program(alloc: Global, program: &Program) -> Result<(), TypeFault>
    requires few_parameters { All (λ (g : Function). length g.params ≤ 8) (program_of program.now) }
    requires few_arguments { All (λ (g : Function). AllNodes FewArguments g.body) (program_of program.now) }
    ensures { Passes (walk_program (program_of program.now)) result }
{
    let mut types = Types::new(alloc)?;
    check_names_and_bodies(alloc, &mut types, program)
}

/// Checks that the program is typed. Otherwise the fault is the first of the walk, and the program
/// is dropped.
#[tactic(auto, using(crate::proofs::Typing::refused_untyped))]
pub fn check(alloc: Global, program: Program) -> Result<Typed, TypeFault>
    requires few_functions { length (program_of program) ≤ 256 }
    requires few_parameters { All (λ (g : Function). length g.params ≤ 8) (program_of program) }
    requires few_arguments { All (λ (g : Function). AllNodes FewArguments g.body) (program_of program) }
    ensures typed { IfOk result (λ typed. (program_of typed ≡ program_of program) × types.Typed (program_of program)) }
    ensures fault { IfErr result (EndsWith (walk_program (program_of program))) }
    ensures refused { IfErr result (λ fault. IsSome (fault_of fault) → types.Typed (program_of program) → ⊥) }
{
    check_program(alloc, &program)?;
    Ok(Typed { program })
}
