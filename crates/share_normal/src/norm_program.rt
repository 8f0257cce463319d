// Programs in normal form.
ghost use Rattle.std.specs.Prelude.{◌≡◌, ◌<◌, IfOk, Some, length, slice_get};
ghost use Rattle.std.specs.List.{All};
ghost use Rattle.raml_syntax.specs.Tree.{Function};
ghost use Rattle.raml_syntax.specs.Types as types;
ghost use Rattle.raml_syntax.specs.Node.{AllNodes, NumberFits};
ghost use Rattle.raml_syntax.specs.Read.{program_of};
ghost use Rattle.normal_spec.specs.Two.{norm};
ghost use Rattle.normal_spec.specs.Uses.{IsNormal};
ghost use Rattle.simple_types.specs.Small.{IsSmall};
ghost use Rattle.call_groups.specs.Groups.{IsGrouping};
ghost use Rattle.share_normal.specs.Program.{NormalForms, norm_in, source_in};

use crate::functions::{normal_functions, results_of};
use call_groups::Groups;
use normal_spec::NormFun;
use raml_syntax::{FunId, FunctionNames, Program, Ty};
use simple_types::Typed;
use std::alloc::{AllocError, Global};
use std::marker::Model;

/// Functions in normal form, by their places in the program.
#[derive(Drop)]
pub struct NormFuns {
    functions: Vec<NormFun>,
}

impl Model for NormFuns {
    ghost use Rattle.std.specs.Prelude.{List};
    ghost use Rattle.std.specs.Coded.{codes};
    ghost use Rattle.raml_syntax.specs.contracts.ty.Ty as ty;
    ghost use Rattle.normal_spec.specs.contracts.form.NormForm as form;
    ghost use Rattle.normal_spec.specs.contracts.form.NormExpr as expr;
    ghost use Rattle.normal_spec.specs.declared.form.NormFun.{NormFun};

    ghost Value = { List NormFun };

    ghost coded = { Prim.hlevel (codes, ty.the_row.coded, form.the_row.coded, expr.the_row.coded) };

    ghost view = { λ funs. funs.functions.items };
}

impl NormFuns {
    /// How many functions there are.
    pub fn len(&self) -> usize
        ensures { result ≡ length self.now }
    {
        self.functions.len()
    }

    /// The function at a place.
    pub fn fun(&self, fun: FunId) -> &NormFun
        requires { fun.0 < length self.now }
        ensures { slice_get self.now fun.0 ≡ Some result.now }
    {
        &self.functions[fun.0 as usize]
    }
}

/// A typed program in normal form, and the groups of its functions.
#[derive(Drop)]
pub struct NormProgram<'a> {
    typed: &'a Typed,
    groups: Groups,
    results: Vec<Ty>,
    functions: NormFuns,
}

impl<'a> Model for NormProgram<'a> {
    ghost use Rattle.std.specs.Coded.{codes};
    ghost use Rattle.raml_syntax.specs.contracts.ty.Ty as ty;
    ghost use Rattle.raml_syntax.specs.contracts.tree.Form as source_form;
    ghost use Rattle.raml_syntax.specs.contracts.tree.Expr as source_expr;
    ghost use Rattle.normal_spec.specs.contracts.form.NormForm as form;
    ghost use Rattle.normal_spec.specs.contracts.form.NormExpr as expr;
    ghost use Rattle.share_normal.specs.Program.{Kept, IsKept};

    ghost Value = { Kept };

    ghost coded = { Prim.hlevel (
      codes,
      ty.the_row.coded,
      source_form.the_row.coded,
      source_expr.the_row.coded,
      form.the_row.coded,
      expr.the_row.coded,
    ) };

    ghost view = { λ program. record {
      source = program.typed.now;
      groups = program.groups;
      results = program.results.items;
      functions = program.functions;
    } };

    ghost invariant = { λ program. IsKept program.typed.now program.groups program.results.items program.functions };
}

impl<'a> NormProgram<'a> {
    /// The program that was typed.
    pub fn source(&self) -> &Program
        ensures source { result.now ≡ self.now.source }
        ensures typed { types.Typed (source_in self.now) }
        ensures small { IsSmall (source_in self.now) }
        ensures numbers { All (λ (g : Function). AllNodes NumberFits g.body) (source_in self.now) }
    {
        self.typed.program()
    }

    /// The groups of its functions.
    pub fn groups(&self) -> &Groups
        ensures groups { result.now ≡ self.now.groups }
        ensures grouping { IsGrouping (source_in self.now) self.now.groups }
    {
        &self.groups
    }

    /// The types of its functions' results.
    pub fn results(&self) -> &[Ty]
        ensures results { result.now ≡ self.now.results }
        ensures count { length result.now ≡ length (source_in self.now) }
    {
        &self.results
    }

    /// The normal forms of its functions. They run as the functions do, and use each variable once.
    pub fn functions(&self) -> &NormFuns
        ensures functions { result.now ≡ self.now.functions }
        ensures count { length result.now ≡ length (source_in self.now) }
        ensures norm { norm_in self.now ≡ norm (source_in self.now) }
        ensures forms { NormalForms (source_in self.now) }
        ensures normal { All (IsNormal (norm_in self.now)) (norm_in self.now) }
    {
        &self.functions
    }
}

/// The normal form of a typed program, which keeps it and its groups. Only memory can be wanting; that is
/// told too where a function has 2^32 variables, or where more than 2^23 nodes of types would be made.
#[tactic(auto, using(crate::proofs::NormalParts::funs_from, crate::proofs::NormalParts::same_count))]
pub fn normalise<'a>(
    alloc: Global,
    typed: &'a Typed,
    groups: Groups,
) -> Result<NormProgram<'a>, AllocError>
    requires { IsGrouping (program_of typed.now) groups }
    ensures source { IfOk result (λ made. made.source ≡ typed.now) }
    ensures groups { IfOk result (λ made. made.groups ≡ groups) }
{
    let program = typed.program();
    let names = FunctionNames::new(alloc, program)?;
    let results = results_of(alloc, &program.funs)?;
    let functions = normal_functions(alloc, &names, &program.funs)?;
    Ok(NormProgram {
        typed,
        groups,
        results,
        functions: NormFuns { functions },
    })
}
