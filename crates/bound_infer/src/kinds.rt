// The budget, the scale and the functions of a task.
ghost use Rattle.std.specs.Prelude.{◌≡◌, unsigned_abs, pos, ◌≤ℤ◌, ◌<ℤ◌};
ghost use Rattle.call_groups.specs.Read.{ids_of};
ghost use Rattle.cost_free.specs.Read.{kind_of};
ghost use Rattle.cost_free.specs.declared.task.Meter.{Meter as Counted};
ghost use Rattle.annot_types.specs.Program.{members};
ghost use Rattle.annot_types.specs.Holds as h;
ghost use Rattle.annot_types.specs.Held.{scale_of, scale_for};
ghost use Rattle.annot_types.specs.Read.{certificate_of};
ghost use Rattle.rules_plan.specs.Read.{program_in};

use annot_types::Certificate;
use cost_free::{Meter, TaskKind};
use raml_syntax::FunId;
use share_normal::NormProgram;

/// The budget of a block, in a certificate of this degree.
pub fn budget_of(degree: u8, kind: TaskKind) -> u8
    ensures { result ≡ h.budget_of degree (kind_of kind) }
{
    match kind {
        TaskKind::Free { budget, .. } => budget,
        TaskKind::With(_) => degree,
    }
}

// The scale of a meter, 1 where there is none of work.
fn scale_of(certificate: &Certificate, meter: Meter) -> i128
    ensures { result ≡ scale_of (certificate_of certificate.now) meter }
{
    match meter {
        Meter::Ticks => certificate.ticks_scale,
        Meter::Cells => certificate.cells_scale,
        Meter::Work => certificate.work_scale.unwrap_or(1),
    }
}

/// The scale at which a block stands.
pub fn scale_for(certificate: &Certificate, kind: TaskKind) -> i128
    requires { (meter : Counted) → pos 0 <ℤ scale_of (certificate_of certificate.now) meter }
    ensures is { unsigned_abs result ≡ scale_for (certificate_of certificate.now) (kind_of kind) }
    ensures natural { pos 0 ≤ℤ result }
{
    match kind {
        TaskKind::Free { .. } => 1,
        TaskKind::With(meter) => scale_of(certificate, meter),
    }
}

/// The functions of a group; none where there is no such group.
pub fn members<'p>(program: &'p NormProgram<'_>, group: u32) -> &'p [FunId]
    ensures { ids_of result.now ≡ members (program_in program.now) group }
{
    match program.groups().list().get(group as usize) {
        Some(functions) => functions,
        None => &[],
    }
}
