// The head of a certificate.
ghost use Rattle.std.specs.Prelude.{◌≡◌, ◌↔◌, ◌≤◌, ◌<ℤ◌, pos, IsTrue};
ghost use Rattle.cost_free.specs.Read.{kind_of};
ghost use Rattle.annot_types.specs.Held.{scale_of, scale_for};
ghost use Rattle.annot_types.specs.Read.{certificate_of};
ghost use Rattle.cert_check.specs.Finds.{HeadFits};

use annot_types::Certificate;
use cost_free::{Meter, TaskKind};

/// The scale of a meter, 1 where there is none of work.
pub fn scale_of(certificate: &Certificate, meter: Meter) -> i128
    ensures { result ≡ scale_of (certificate_of certificate.now) meter }
{
    match meter {
        Meter::Ticks => certificate.ticks_scale,
        Meter::Cells => certificate.cells_scale,
        Meter::Work => certificate.work_scale.unwrap_or(1),
    }
}

/// The scale at which a block stands.
pub fn scale_for(certificate: &Certificate, kind: TaskKind) -> u128
    ensures { result ≡ scale_for (certificate_of certificate.now) (kind_of kind) }
{
    match kind {
        TaskKind::Free { .. } => 1,
        TaskKind::With(meter) => scale_of(certificate, meter).unsigned_abs(),
    }
}

// The scales are positive.
fn are_positive(ticks: i128, cells: i128, work: i128) -> bool
    ensures { IsTrue result ↔ ((pos 0 <ℤ ticks) × (pos 0 <ℤ cells) × (pos 0 <ℤ work)) }
{
    ticks > 0 && cells > 0 && work > 0
}

fn is_degree(degree: u8) -> bool
    ensures { IsTrue result ↔ ((1 ≤ degree) × (degree ≤ 4)) }
{
    degree >= 1 && degree <= 4
}

/// The degree is from 1 to 4, and the scales are positive.
pub fn head_fits(certificate: &Certificate) -> bool
    ensures { IsTrue result ↔ HeadFits (certificate_of certificate.now) }
{
    is_degree(certificate.degree)
        && are_positive(
            scale_of(certificate, Meter::Ticks),
            scale_of(certificate, Meter::Cells),
            scale_of(certificate, Meter::Work),
        )
}
