// The scales of meters.
ghost use Rattle.std.specs.Prelude.{◌≡◌, pos, cond};
ghost use Rattle.cost_free.specs.declared.task.Meter.TheVariants.{Ticks, Cells, Work};
ghost use Rattle.cost_free.specs.Task.{same_meter};
ghost use Rattle.cost_free.specs.Read.{kind_of};
ghost use Rattle.infer_spec.specs.States.{scale_at};
ghost use Rattle.bound_infer.specs.Keeping.{scales_of};

use crate::factor::Factor;
use cost_free::{Meter, TaskKind};

/// The scale of each meter.
#[derive(Drop)]
pub(crate) struct Scales {
    pub(crate) ticks: Factor,
    pub(crate) cells: Factor,
    pub(crate) work: Factor,
}

impl Scales {
    /// All of them are 1.
    pub(crate) fn new() -> Scales
        ensures ticks { result.ticks ≡ 1 }
        ensures cells { result.cells ≡ 1 }
        ensures work { result.work ≡ 1 }
    {
        Scales {
            ticks: Factor::new(1),
            cells: Factor::new(1),
            work: Factor::new(1),
        }
    }

    /// That of a meter.
    pub(crate) fn of_meter(&self, meter: Meter) -> &Factor
        ensures { result.now ≡ scales_of self.now meter }
    {
        match meter {
            Meter::Ticks => &self.ticks,
            Meter::Cells => &self.cells,
            Meter::Work => &self.work,
        }
    }

    /// That of a task, 1 for one without cost.
    pub(crate) fn of_kind(&self, kind: TaskKind) -> i128
        ensures { result ≡ pos (scale_at (scales_of self.now) (kind_of kind)) }
    {
        match kind {
            TaskKind::Free { .. } => 1,
            TaskKind::With(meter) => self.of_meter(meter).value(),
        }
    }

    /// A meter gets another one.
    pub(crate) fn set(&mut self, meter: Meter, scale: Factor)
        ensures ticks { self.new.ticks ≡ cond (same_meter meter Ticks) scale self.old.ticks }
        ensures cells { self.new.cells ≡ cond (same_meter meter Cells) scale self.old.cells }
        ensures work { self.new.work ≡ cond (same_meter meter Work) scale self.old.work }
    {
        match meter {
            Meter::Ticks => self.ticks = scale,
            Meter::Cells => self.cells = scale,
            Meter::Work => self.work = scale,
        }
    }
}
