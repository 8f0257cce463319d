// What prices are multiplied by.
use annot_types::{Annot, Block, BlockBody, Certificate, Hint, Sig};
use cost_free::{Meter, TaskKind};
use raml_num::gcd;

/// What a task's prices are multiplied by.
#[derive(Clone, Copy, Debug)]
pub struct Prices {
    /// At the end of the analysis.
    pub scale: u128,
    /// How often that has been multiplied since the task was tried.
    pub raised: u128,
}

/// The prices of a task, by the blocks before it.
///
/// Each solution stands over its least denominator, so when the task was tried the scale of its meter and all
/// numbers of the meter's blocks had nothing in common but 1. What they have in common at the end came later.
pub fn prices_of(certificate: &Certificate, kind: TaskKind, before: &[Block]) -> Prices {
    let scale = scale_of(certificate, kind);
    let mut raised = scale;
    for block in before {
        if block.task.kind == kind {
            raised = with_block(raised, &block.body);
        }
    }
    Prices { scale, raised }
}

fn scale_of(certificate: &Certificate, kind: TaskKind) -> u128 {
    match kind {
        TaskKind::Free { .. } => 1,
        TaskKind::With(Meter::Ticks) => certificate.ticks_scale.unsigned_abs(),
        TaskKind::With(Meter::Cells) => certificate.cells_scale.unsigned_abs(),
        TaskKind::With(Meter::Work) => certificate.work_scale.unwrap_or(1).unsigned_abs(),
    }
}

// What a number has in common with those of a block, and so below.
fn with_block(common: u128, body: &BlockBody) -> u128 {
    match body {
        BlockBody::Solved { sigs, hints } => with_hints(with_sigs(common, sigs), hints),
        BlockBody::Refuted { .. } | BlockBody::Calls { .. } => common,
    }
}

fn with_sigs(common: u128, sigs: &[Sig]) -> u128 {
    let mut common = common;
    for sig in sigs {
        common = with_annot(with_annot(common, &sig.args), &sig.result);
    }
    common
}

fn with_hints(common: u128, hints: &[Vec<Hint>]) -> u128 {
    let mut common = common;
    for of_body in hints {
        for hint in of_body {
            common = with_hint(common, hint);
        }
    }
    common
}

fn with_hint(common: u128, hint: &Hint) -> u128 {
    match hint {
        Hint::Let(annots) => with_annots(common, annots),
        Hint::Share(annot) => with_annot(common, annot),
        Hint::Call(entries) => with_entries(common, entries),
    }
}

fn with_annots(common: u128, annots: &[Annot]) -> u128 {
    let mut common = common;
    for annot in annots {
        common = with_annot(common, annot);
    }
    common
}

fn with_annot(common: u128, annot: &Annot) -> u128 {
    with_entries(common, annot.entries())
}

fn with_entries(common: u128, entries: &[(u32, i128)]) -> u128 {
    let mut common = common;
    for (_, number) in entries {
        common = gcd(common, number.unsigned_abs());
    }
    common
}
