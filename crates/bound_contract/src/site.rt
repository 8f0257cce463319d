// Where a declared bound is decided.
ghost use Rattle.std.specs.Prelude.{◌≡◌, ◌<ℤ◌, pos};
ghost use Rattle.cost_free.specs.Read.{task_of};
ghost use Rattle.annot_types.specs.Held.{scale_of};
ghost use Rattle.annot_types.specs.Read.{certificate_of};
ghost use Rattle.bound_contract.specs.Sites.{certificate_at, task_at};

use annot_types::Certificate;
use cert_check::Checked;
use cost_free::{Meter, Task, TaskKind};
use raml_syntax::FunId;
use std::alloc::Global;

/// A declared bound of a function and a meter, and the place of the certificate's block for the meter and
/// the function's group.
#[derive(Drop)]
pub(crate) struct Site<'s, 'p, 'a> {
    pub alloc: Global,
    pub checked: &'s Checked<'p, 'a>,
    pub fun: FunId,
    pub meter: Meter,
    pub bound: &'s [(u32, i128, i128)],
    pub place: usize,
    pub group: u32,
}

impl Site<'_, '_, '_> {
    /// The task of that block.
    pub(crate) fn task(&self) -> Task
        ensures { task_of result ≡ task_at self.now }
    {
        Task {
            group: self.group,
            kind: TaskKind::With(self.meter),
        }
    }

    /// The scale of the meter.
    pub(crate) fn scale(&self) -> i128
        ensures is { result ≡ scale_of (certificate_at self.now) self.now.meter }
        ensures positive { pos 0 <ℤ result }
    {
        scale_of(self.checked.certificate(), self.meter)
    }
}

// The scale of a meter, 1 where there is none of work.
fn scale_of(certificate: &Certificate, meter: Meter) -> i128
    ensures { result ≡ scale_of (certificate_of certificate.now) meter }
{
    match meter {
        Meter::Ticks => certificate.ticks_scale,
        Meter::Cells => certificate.cells_scale,
        Meter::Work => certificate.work_scale.unwrap_or(1),
    }
}
