// The check of a solved block, from its plans on.
ghost use Rattle.std.specs.Prelude.{◌≡◌, ◌↔◌, ◌≤◌, List, map, length, IsTrue, IfOk, OnOk};
ghost use Rattle.cost_free.specs.Read.{kind_of, task_of};
ghost use Rattle.annot_types.specs.Certificate as c;
ghost use Rattle.annot_types.specs.Certificate.{Solved};
ghost use Rattle.annot_types.specs.Held.{SigsRise, AllHintsRise};
ghost use Rattle.annot_types.specs.Holds as h;
ghost use Rattle.annot_types.specs.Read as a;
ghost use Rattle.rules_walk.specs.Remembers.{Remembers};
ghost use Rattle.rules_plan.specs.Read.{body_of, GroupWithin, ArePlansOf, AreKept};
ghost use Rattle.cert_check.specs.At.{program_at, IsAt, Tells, sizes_of};
ghost use Rattle.cert_check.specs.Asking.{all_asks_of};
ghost use Rattle.cert_check.specs.Finds.{SigsFit, AllFit, asks_by, job, ShapeFinds, BodyFinds};

use crate::at::{At, budget_of};
use crate::fault::CertFault;
use crate::reached::check_target;
use crate::rules::all_asked;
use crate::shape::{hints_fit, sigs_fit};
use annot_types::{Hint, Sig};
use rules_plan::{Body, GroupPlans, KeptPlans, PlanFault, next_plans};
use rules_walk::Ask;
use std::alloc::{AllocError, Global};

// Signatures and hints are those that the bodies want.
fn is_shapely(bodies: &[Body<'_>], asks: &[Vec<Ask>], sigs: &[Sig], hints: &[Vec<Hint>]) -> bool
    ensures { IsTrue result ↔ ((SigsFit (map body_of bodies.now) (map a.sig_of sigs.now) × SigsRise (map a.sig_of sigs.now))
        × (AllFit (all_asks_of asks.now) (map a.hints_of hints.now) × AllHintsRise (map a.hints_of hints.now))) }
{
    sigs_fit(bodies, sigs) && hints_fit(asks, hints)
}

// The shape, and what comes behind it.
fn check_shape(
    at: &At<'_, '_>,
    bodies: &[Body<'_>],
    asks: &[Vec<Ask>],
    sigs: &[Sig],
    hints: &[Vec<Hint>],
) -> Result<(), CertFault>
    requires within { GroupWithin (program_at at.now) at.now.task.group (h.budget_of at.now.degree (kind_of at.now.task.kind)) }
    requires few { length bodies.now ≤ 256 }
    requires asked { all_asks_of asks.now ≡ asks_by (map body_of bodies.now) }
    ensures { (held : c.Certificate) (blocks : List c.Block) → IsAt at.now held blocks →
        map body_of bodies.now ≡ (job (program_at at.now) held blocks (task_of at.now.task)).bodies →
        Tells result (ShapeFinds (program_at at.now) held blocks (task_of at.now.task) (map a.sig_of sigs.now) (map a.hints_of hints.now)) }
{
    if is_shapely(bodies, asks, sigs, hints) {
        check_target(at, bodies, asks, sigs, hints)
    } else {
        Err(CertFault::Shape { block: at.number })
    }
}

// How many positions the functions have.
fn sizes(alloc: Global, bodies: &[Body<'_>]) -> Result<Vec<(usize, usize)>, AllocError>
    ensures { IfOk result (λ sizes. sizes.items ≡ sizes_of (map body_of bodies.now)) }
{
    let mut sizes = Vec::with_capacity(alloc, bodies.len())?;
    for body in bodies {
        sizes.push((body.args, body.result))?;
    }
    Ok(sizes)
}

/// The check of a block with these plans; how many positions its functions have.
pub fn check_planned(
    at: &At<'_, '_>,
    bodies: &[Body<'_>],
    sigs: &[Sig],
    hints: &[Vec<Hint>],
) -> Result<Vec<(usize, usize)>, CertFault>
    requires within { GroupWithin (program_at at.now) at.now.task.group (h.budget_of at.now.degree (kind_of at.now.task.kind)) }
    requires few { length bodies.now ≤ 256 }
    ensures tells { (held : c.Certificate) (blocks : List c.Block) → IsAt at.now held blocks →
        map body_of bodies.now ≡ (job (program_at at.now) held blocks (task_of at.now.task)).bodies →
        Tells result (ShapeFinds (program_at at.now) held blocks (task_of at.now.task) (map a.sig_of sigs.now) (map a.hints_of hints.now)) }
    ensures sizes { IfOk result (λ sizes. sizes.items ≡ sizes_of (map body_of bodies.now)) }
{
    match all_asked(at.alloc, bodies) {
        Err(_) => Err(CertFault::NoMemory),
        Ok(asks) => match check_shape(at, bodies, &asks, sigs, hints) {
            Err(fault) => Err(fault),
            Ok(()) => match sizes(at.alloc, bodies) {
                Err(_) => Err(CertFault::NoMemory),
                Ok(sizes) => Ok(sizes),
            },
        },
    }
}

// The check of a block whose group has these plans; how many positions its functions have.
fn check_over(
    at: &At<'_, '_>,
    plans: &GroupPlans,
    sigs: &[Sig],
    hints: &[Vec<Hint>],
) -> Result<Vec<(usize, usize)>, CertFault>
    requires remembers { (blocks : List c.Block) × Remembers (program_at at.now) at.now.degree blocks at.now.earlier.now }
    requires plans { ArePlansOf (program_at at.now) at.now.task.group (h.budget_of at.now.degree (kind_of at.now.task.kind)) plans.now }
    ensures tells { (held : c.Certificate) (blocks : List c.Block) → IsAt at.now held blocks →
        Remembers (program_at at.now) held.degree blocks at.now.earlier.now →
        Tells result (BodyFinds (program_at at.now) held blocks (task_of at.now.task)
        (Solved (map a.sig_of sigs.now) (map a.hints_of hints.now))) }
    ensures sizes { IfOk result
        (λ sizes. (held : c.Certificate) (blocks : List c.Block) → IsAt at.now held blocks →
        Remembers (program_at at.now) held.degree blocks at.now.earlier.now →
        sizes.items ≡ sizes_of (job (program_at at.now) held blocks (task_of at.now.task)).bodies) }
{
    let _source = at.program.source();
    let _groups = at.program.groups();
    match plans.over(at.alloc, at.earlier) {
        Err(_) => Err(CertFault::NoMemory),
        Ok(bodies) => check_planned(at, &bodies, sigs, hints),
    }
}

/// The check of a solved block; how many positions its functions have. Its plans are kept.
pub fn check_solved(
    at: &At<'_, '_>,
    kept: &mut KeptPlans,
    sigs: &[Sig],
    hints: &[Vec<Hint>],
) -> Result<Vec<(usize, usize)>, CertFault>
    requires low { h.budget_of at.now.degree (kind_of at.now.task.kind) ≤ 4 }
    requires remembers { (blocks : List c.Block) × Remembers (program_at at.now) at.now.degree blocks at.now.earlier.now }
    requires kept { AreKept (program_at at.now) kept.old }
    ensures kept { OnOk result (AreKept (program_at at.now) kept.new) }
    ensures tells { (held : c.Certificate) (blocks : List c.Block) → IsAt at.now held blocks →
        Remembers (program_at at.now) held.degree blocks at.now.earlier.now →
        Tells result (BodyFinds (program_at at.now) held blocks (task_of at.now.task)
        (Solved (map a.sig_of sigs.now) (map a.hints_of hints.now))) }
    ensures sizes { IfOk result
        (λ sizes. (held : c.Certificate) (blocks : List c.Block) → IsAt at.now held blocks →
        Remembers (program_at at.now) held.degree blocks at.now.earlier.now →
        sizes.items ≡ sizes_of (job (program_at at.now) held blocks (task_of at.now.task)).bodies) }
{
    let budget = budget_of(at.degree, at.task.kind);
    let last = kept.take(at.task.group, budget);
    match next_plans(at.alloc, at.program, last, at.task.group, budget) {
        Err(PlanFault::TooMany) => Err(CertFault::TooLarge { task: at.task }),
        Err(PlanFault::NoMemory) => Err(CertFault::NoMemory),
        Ok(plans) => match check_over(at, &plans, sigs, hints) {
            Err(fault) => Err(fault),
            Ok(sizes) => match kept.keep(plans) {
                Ok(()) => Ok(sizes),
                Err(_) => Err(CertFault::NoMemory),
            },
        },
    }
}
