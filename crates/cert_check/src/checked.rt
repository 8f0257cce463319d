// Certificates that were checked.
ghost use Rattle.std.specs.Prelude.{◌≡◌, Some, slice_get, IfOk, IfSome};
ghost use Rattle.std.specs.Option.{option_map};
ghost use Rattle.raml_syntax.specs.Tree.{Function};
ghost use Rattle.share_normal.specs.Program.{source_in};
ghost use Rattle.annot_types.specs.Held.{Held};
ghost use Rattle.annot_types.specs.Read.{certificate_of};
ghost use Rattle.rules_soundness_laws.specs.Bounds.{Bounds};
ghost use Rattle.rules_plan.specs.Read.{program_in};
ghost use Rattle.cert_check.specs.Bound.{told, told_of};
ghost use Rattle.cert_check.specs.Laws.{IsFaultless};
ghost use Rattle.base_poly.specs.Poly.{den_of, terms_of, IsPoly};

use crate::bound::bound_of;
use annot_types::Certificate;
use base_poly::Poly;
use cost_free::Meter;
use raml_syntax::FunId;
use share_normal::NormProgram;
use std::alloc::{AllocError, Global};
use std::marker::Model;

/// A certificate without fault, with its program: it is held, within the limits, and no total of it
/// leaves 127 bits.
#[derive(Drop)]
pub struct Checked<'p, 'a> {
    program: &'p NormProgram<'a>,
    certificate: Certificate,
}

impl<'p, 'a> Model for Checked<'p, 'a> {
    ghost use Rattle.std.specs.Coded.{codes};
    ghost use Rattle.raml_syntax.specs.contracts.ty.Ty as ty;
    ghost use Rattle.raml_syntax.specs.contracts.tree.Form as source_form;
    ghost use Rattle.raml_syntax.specs.contracts.tree.Expr as source_expr;
    ghost use Rattle.normal_spec.specs.contracts.form.NormForm as form;
    ghost use Rattle.normal_spec.specs.contracts.form.NormExpr as expr;
    ghost use Rattle.annot_types.specs.Read.{certificate_of};
    ghost use Rattle.rules_plan.specs.Read.{program_in};
    ghost use Rattle.cert_check.specs.Checked.{Checking};
    ghost use Rattle.cert_check.specs.Laws.{IsFaultless};

    ghost Value = { Checking };

    ghost coded = { Prim.hlevel (
      codes,
      ty.the_row.coded,
      source_form.the_row.coded,
      source_expr.the_row.coded,
      form.the_row.coded,
      expr.the_row.coded,
    ) };

    ghost view = { λ checked. record {
      program = checked.program.now;
      certificate = certificate_of checked.certificate;
    } };

    ghost invariant = { λ checked. IsFaultless (program_in checked.program.now) (certificate_of checked.certificate) };
}

// A certificate without fault is kept.
pub fn keep<'p, 'a>(program: &'p NormProgram<'a>, certificate: Certificate) -> Checked<'p, 'a>
    requires { IsFaultless (program_in program.now) (certificate_of certificate) }
    ensures { result ≡ record { program = program.now; certificate = certificate_of certificate } }
{
    Checked {
        program,
        certificate,
    }
}

impl<'p, 'a> Checked<'p, 'a> {
    /// The program with which it was checked.
    pub fn program(&self) -> &'p NormProgram<'a>
        ensures { result.now ≡ self.now.program }
    {
        self.program
    }

    /// The certificate that was checked.
    pub fn certificate(&self) -> &Certificate
        ensures certificate { certificate_of result.now ≡ self.now.certificate }
        ensures held { Held (program_in self.now.program) self.now.certificate }
        ensures faultless { IsFaultless (program_in self.now.program) self.now.certificate }
    {
        &self.certificate
    }

    /// The argument annotation of a function over the meter's scale; none exactly where no block of the
    /// meter that has a signature for the function is solved. It bounds what the function costs.
    pub fn bound(&self, alloc: Global, fun: FunId, meter: Meter) -> Result<Option<Poly>, AllocError>
        ensures told { IfOk result
            (λ found. option_map told_of found ≡ told (program_in self.now.program) self.now.certificate fun.0 meter) }
        ensures poly { IfOk result (λ found. IfSome found IsPoly) }
        ensures bounds { IfOk result
            (λ found. IfSome found (λ poly. (source : Function) → slice_get (source_in self.now.program) fun.0 ≡ Some source →
            Bounds (source_in self.now.program) fun.0 source meter (den_of poly) (terms_of poly))) }
    {
        let _source = self.program.source();
        let _functions = self.program.functions();
        bound_of(alloc, self.program, &self.certificate, fun, meter)
    }
}
