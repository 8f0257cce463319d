// Other blocks of a task.
ghost use Rattle.std.specs.Prelude.{◌≡◌, ◌<ℤ◌, IsTrue, pos, unsigned_abs, Some, slice_get, IfOk};
ghost use Rattle.raml_syntax.specs.Tree.{Function};
ghost use Rattle.share_normal.specs.Program.{source_in};
ghost use Rattle.base_poly.specs.Poly.{den_of, terms_of, IsPoly};
ghost use Rattle.cost_free.specs.declared.task.Meter.{Meter as Counted};
ghost use Rattle.cost_free.specs.Task.{With};
ghost use Rattle.cost_free.specs.Blocked.{is_among};
ghost use Rattle.call_groups.specs.Read.{ids_of};
ghost use Rattle.annot_types.specs.Program.{members};
ghost use Rattle.annot_types.specs.Signature.{sig_in};
ghost use Rattle.annot_types.specs.Read.{block_of};
ghost use Rattle.rules_soundness_laws.specs.Bounds.{Bounds};
ghost use Rattle.rules_plan.specs.Read.{program_in};
ghost use Rattle.cert_check.specs.Bound.{told_by, told_of};
ghost use Rattle.other_blocks.specs.Over.{IsOver};

use annot_types::Block;
use base_poly::Poly;
use cert_check::{members, params_of, poly_of, sig_of, sigs_of};
use raml_syntax::FunId;
use share_normal::NormProgram;
use std::alloc::{AllocError, Global};
use std::marker::Model;

/// A solved block of a task with cost, which holds in the place of a certificate's block of that task,
/// within the limits, over a multiple of the certificate's scale; with its program.
#[derive(Drop)]
pub struct OtherBlock<'p, 'a> {
    program: &'p NormProgram<'a>,
    degree: u8,
    scale: i128,
    block: Block,
}

impl<'p, 'a> Model for OtherBlock<'p, 'a> {
    ghost use Rattle.std.specs.Prelude.{pos, ◌<ℤ◌, unsigned_abs};
    ghost use Rattle.std.specs.Coded.{codes};
    ghost use Rattle.raml_syntax.specs.contracts.ty.Ty as ty;
    ghost use Rattle.raml_syntax.specs.contracts.tree.Form as source_form;
    ghost use Rattle.raml_syntax.specs.contracts.tree.Expr as source_expr;
    ghost use Rattle.normal_spec.specs.contracts.form.NormForm as form;
    ghost use Rattle.normal_spec.specs.contracts.form.NormExpr as expr;
    ghost use Rattle.annot_types.specs.Read.{block_of};
    ghost use Rattle.other_blocks.specs.Over.{Over, IsOver};

    ghost Value = { Over };

    ghost coded = { Prim.hlevel (
      codes,
      ty.the_row.coded,
      source_form.the_row.coded,
      source_expr.the_row.coded,
      form.the_row.coded,
      expr.the_row.coded,
    ) };

    ghost view = { λ other. record {
      program = other.program.now;
      degree = other.degree;
      scale = unsigned_abs other.scale;
      block = block_of other.block;
    } };

    ghost invariant = { λ other. (pos 0 <ℤ other.scale) × IsOver (record {
      program = other.program.now;
      degree = other.degree;
      scale = unsigned_abs other.scale;
      block = block_of other.block;
    }) };
}

// A block that holds is kept.
pub fn keep<'p, 'a>(
    program: &'p NormProgram<'a>,
    degree: u8,
    scale: i128,
    block: Block,
) -> OtherBlock<'p, 'a>
    requires positive { pos 0 <ℤ scale }
    requires over { IsOver (record { program = program.now; degree = degree; scale = unsigned_abs scale; block = block_of block }) }
    ensures { result ≡ record { program = program.now; degree = degree; scale = unsigned_abs scale; block = block_of block } }
{
    OtherBlock {
        program,
        degree,
        scale,
        block,
    }
}

fn is_among(fun: FunId, functions: &[FunId]) -> bool
    ensures { result ≡ is_among fun.0 (ids_of functions.now) }
{
    for function in functions {
        if fun.0 == function.0 {
            return true;
        }
    }
    false
}

impl<'p, 'a> OtherBlock<'p, 'a> {
    /// The block.
    pub fn block(&self) -> &Block
        ensures block { block_of result.now ≡ self.now.block }
        ensures over { IsOver self.now }
    {
        &self.block
    }

    /// Whether a function is of the block's group.
    pub fn has(&self, fun: FunId) -> bool
        ensures { result ≡ is_among fun.0 (members (program_in self.now.program) self.now.block.task.group) }
    {
        is_among(fun, members(self.program, self.block.task.group))
    }

    /// The argument annotation that the block has for a function of its group, over the block's scale. It
    /// bounds what the function costs.
    pub fn bound(&self, alloc: Global, fun: FunId) -> Result<Poly, AllocError>
        requires { IsTrue (is_among fun.0 (members (program_in self.now.program) self.now.block.task.group)) }
        ensures told { IfOk result (λ poly. Some (told_of poly)
            ≡ told_by self.now.scale self.now.degree (slice_get (program_in self.now.program).funs fun.0)
            (sig_in (program_in self.now.program) self.now.block fun.0)) }
        ensures poly { IfOk result IsPoly }
        ensures bounds { IfOk result (λ poly. (meter : Counted) → self.now.block.task.kind ≡ With meter →
            (source : Function) → slice_get (source_in self.now.program) fun.0 ≡ Some source →
            Bounds (source_in self.now.program) fun.0 source meter (den_of poly) (terms_of poly)) }
    {
        let _source = self.program.source();
        let _functions = self.program.functions();
        let _groups = self.program.groups();
        let Some(params) = params_of(self.program, fun) else {
            unreachable!()
        };
        let functions = members(self.program, self.block.task.group);
        let Some(sig) = sig_of(functions, sigs_of(&self.block.body), fun) else {
            unreachable!()
        };
        poly_of(alloc, self.scale, self.degree, params, &sig.args)
    }
}
