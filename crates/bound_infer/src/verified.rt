// Certificates that were verified.
ghost use Rattle.std.specs.Prelude.{◌≡◌, ◌<◌, ◌∷◌, [], length, map, IfOk};
ghost use Rattle.std.specs.List.{Contains};
ghost use Rattle.cost_free.specs.Schedule.{meters};
ghost use Rattle.share_normal.specs.Program.{source_in};
ghost use Rattle.annot_types.specs.Certificate.{has_work};
ghost use Rattle.annot_types.specs.Held.{line, lines_for};
ghost use Rattle.annot_types.specs.Read.{certificate_of};
ghost use Rattle.annot_types.specs.System.{Valid};
ghost use Rattle.rules_soundness_laws.specs.Laws.{IsTrue};
ghost use Rattle.rules_plan.specs.Read.{program_in};
ghost use Rattle.infer_spec.specs.Good.{AllRefuted};
ghost use Rattle.infer_spec.specs.Lines.{Tells};
ghost use Rattle.bound_infer.specs.Inferred.{SystemsAreSmall, VerifiesAgain};
ghost use Rattle.bound_infer.specs.Told.{claim_of, IsWritten};

use crate::claims::{block_for, told};
use crate::inference::ordered;
use crate::line::Line;
use annot_types::Certificate;
use cert_check::Checked;
use cert_check::laws::{faultless_exactly, one_first_fault};
use cost_free::Meter;
use infer_spec::laws::none_unrefuted;
use raml_syntax::FunId;
use std::alloc::{AllocError, Global};
use std::marker::Model;

/// A valid certificate with its program: its solved blocks hold, and the tasks of its refuted blocks have
/// no solution. The systems of these are within the limits.
#[derive(Drop)]
pub struct Verified<'p, 'a> {
    checked: Checked<'p, 'a>,
}

impl<'p, 'a> Model for Verified<'p, 'a> {
    ghost use Rattle.std.specs.Coded.{codes};
    ghost use Rattle.raml_syntax.specs.contracts.ty.Ty as ty;
    ghost use Rattle.raml_syntax.specs.contracts.tree.Form as source_form;
    ghost use Rattle.raml_syntax.specs.contracts.tree.Expr as source_expr;
    ghost use Rattle.normal_spec.specs.contracts.form.NormForm as form;
    ghost use Rattle.normal_spec.specs.contracts.form.NormExpr as expr;
    ghost use Rattle.annot_types.specs.System.{Valid};
    ghost use Rattle.infer_spec.specs.Good.{AllRefuted};
    ghost use Rattle.rules_plan.specs.Read.{program_in};
    ghost use Rattle.cert_check.specs.Checked.{Checking};
    ghost use Rattle.bound_infer.specs.Inferred.{SystemsAreSmall};

    ghost Value = { Checking };

    ghost coded = { Prim.hlevel (
      codes,
      ty.the_row.coded,
      source_form.the_row.coded,
      source_expr.the_row.coded,
      form.the_row.coded,
      expr.the_row.coded,
    ) };

    ghost view = { λ verified. verified.checked };

    ghost invariant = { λ verified. Valid (program_in verified.checked.program) verified.checked.certificate
        × AllRefuted (program_in verified.checked.program) verified.checked.certificate
        × SystemsAreSmall (program_in verified.checked.program) verified.checked.certificate };
}

/// A certificate that was checked is kept, where it is valid, and its refuted tasks have no solution and
/// systems within the limits.
pub(crate) fn keep<'p, 'a>(checked: Checked<'p, 'a>) -> Verified<'p, 'a>
    requires valid { Valid (program_in checked.program) checked.certificate }
    requires refuted { AllRefuted (program_in checked.program) checked.certificate }
    requires small { SystemsAreSmall (program_in checked.program) checked.certificate }
    ensures { result ≡ checked.entry }
{
    Verified { checked }
}

impl<'p, 'a> Verified<'p, 'a> {
    /// The certificate that was checked, with its program.
    pub fn checked(&self) -> &Checked<'p, 'a>
        ensures { result.now ≡ self.now }
    {
        &self.checked
    }

    /// The certificate. `verify` with the same program takes it again, but where a number of a vector's
    /// check leaves 128 bits, or memory is wanting.
    pub fn certificate(&self) -> &Certificate
        ensures certificate { certificate_of result.now ≡ self.now.certificate }
        ensures valid { Valid (program_in self.now.program) self.now.certificate }
        ensures refuted { AllRefuted (program_in self.now.program) self.now.certificate }
        ensures again { VerifiesAgain (program_in self.now.program) self.now.certificate }
    {
        ordered(self.checked.program());
        faultless_exactly();
        one_first_fault();
        none_unrefuted();
        self.checked.certificate()
    }

    /// The line of a function and a meter that the certificate counts: a bound of what the function costs,
    /// or that there is none.
    pub fn line(&self, alloc: Global, fun: FunId, meter: Meter) -> Result<Line, AllocError>
        requires fun { fun.0 < length (source_in self.now.program) }
        requires meter { Contains (meters (has_work self.now.certificate)) meter }
        ensures line { IfOk result
            (λ told. lines_for (program_in self.now.program) self.now.certificate fun.0 meter ≡ line fun.0 meter (claim_of told) ∷ []) }
        ensures poly { IfOk result IsWritten }
        ensures bounds { IfOk result (λ told. IsTrue (source_in self.now.program) fun.0 meter (claim_of told)) }
        ensures tells { IfOk result (λ told. Tells (program_in self.now.program) self.now.certificate fun.0 meter (claim_of told)) }
    {
        let program = self.checked.program();
        let _source = program.source();
        let _groups = program.groups();
        let _functions = program.functions();
        let certificate = self.checked.certificate();
        let bound = self.checked.bound(alloc, fun, meter)?;
        Ok(told(bound, &block_for(program, certificate, fun, meter).body))
    }
}
