// The check of a solved block's target.
ghost use Rattle.std.specs.Prelude.{◌≡◌, ◌≤◌, List, [], ◌∷◌, map, length, Some, IfOk, IfSome, IfNone};
ghost use Rattle.std.specs.Option.{unwrap_or};
ghost use Rattle.base_poly.specs.Indices.{index_list};
ghost use Rattle.cost_free.specs.Read.{task_of, kind_of};
ghost use Rattle.cost_free.specs.Task.{Free};
ghost use Rattle.annot_types.specs.Certificate as c;
ghost use Rattle.annot_types.specs.Holds as h;
ghost use Rattle.annot_types.specs.Read as a;
ghost use Rattle.annot_types.specs.Program.{members};
ghost use Rattle.rules_spec.specs.Planned.{place_in};
ghost use Rattle.rules_plan.specs.Read.{body_of, GroupWithin};
ghost use Rattle.cert_check.specs.At.{program_at, IsAt, Tells, ReachesAt, MissesAt};
ghost use Rattle.cert_check.specs.Asking.{all_asks_of};
ghost use Rattle.cert_check.specs.Fault.{Fails};
ghost use Rattle.cert_check.specs.Finds.{asks_by, job, TargetFinds};
ghost use Rattle.raml_syntax.specs.Read.{ty_of};
ghost use Rattle.annot_types.specs.Certificate.{annotation};
ghost use Rattle.cert_check.specs.Read.{fault_of};
ghost use Rattle.cert_check.specs.Covering.{IsReached, IsMissed};

use crate::at::{At, members, result_of};
use crate::fault::CertFault;
use crate::solved::check_rules;
use crate::target::{aim_at, covers, first_missing, has_tuple, place_of, sig_of, unit_missing};
use annot_types::{Annot, Hint, Sig};
use cost_free::TaskKind;
use raml_syntax::{FunId, Ty};
use rules_plan::Body;
use rules_walk::Ask;
use smallvec::SmallVec;
use std::alloc::AllocError;

// Where an annotation does not reach the target of this number: the first position at which it has no
// number, and 0 where there is none.
fn missing(
    at: &At<'_, '_>,
    ty: &Ty,
    budget: u8,
    number: u32,
    annot: &Annot,
) -> Result<Option<usize>, AllocError>
    requires { length (index_list (ty_of ty.now ∷ []) budget) ≤ 2000 }
    ensures reached { IfOk result
        (λ missing. IfNone missing (IsReached (ty_of ty.now) at.now.degree budget number (annotation annot.now))) }
    ensures missed { IfOk result
        (λ missing. IfSome missing (λ index. IsMissed (ty_of ty.now) at.now.degree budget number (annotation annot.now) index)) }
{
    let is_unit = has_tuple(at.alloc, ty, at.degree, number)?;
    if !is_unit {
        return listed_missing(at, ty, budget, number, annot);
    }
    let is_position = has_tuple(at.alloc, ty, budget, number)?;
    Ok(unit_missing(number, is_position, annot))
}

// The same of any target, by the list of all tuples.
fn listed_missing(
    at: &At<'_, '_>,
    ty: &Ty,
    budget: u8,
    number: u32,
    annot: &Annot,
) -> Result<Option<usize>, AllocError>
    requires { length (index_list (ty_of ty.now ∷ []) budget) ≤ 2000 }
    ensures reached { IfOk result
        (λ missing. IfNone missing (IsReached (ty_of ty.now) at.now.degree budget number (annotation annot.now))) }
    ensures missed { IfOk result
        (λ missing. IfSome missing (λ index. IsMissed (ty_of ty.now) at.now.degree budget number (annotation annot.now) index)) }
{
    match aim_at(at.alloc, ty, at.degree, budget, number)? {
        None => Ok(Some(0)),
        Some(aim) => {
            if covers(&aim, annot) {
                Ok(None)
            } else {
                Ok(Some(first_missing(&aim, annot)))
            }
        }
    }
}

// The same of a function of the block's group, by its signature.
fn missed(
    at: &At<'_, '_>,
    sigs: &[Sig],
    budget: u8,
    fun: FunId,
    target: u32,
) -> Result<Option<usize>, AllocError>
    requires within { GroupWithin (program_at at.now) at.now.task.group budget }
    ensures reached { IfOk result (λ missed. IfNone missed (ReachesAt at.now (map a.sig_of sigs.now) budget fun.0 target)) }
    ensures missed { IfOk result (λ missed. IfSome missed (λ index. MissesAt at.now (map a.sig_of sigs.now) budget fun.0 target index)) }
{
    let functions = members(at.program, at.task.group);
    match sig_of(functions, sigs, fun) {
        None => Ok(Some(0)),
        Some(sig) => match result_of(at.program, fun) {
            None => Ok(Some(0)),
            Some(ty) => missing(at, ty, budget, target, &sig.result),
        },
    }
}

// The fault of a target that is missed.
fn miss(at: &At<'_, '_>, fun: FunId, index: usize) -> Result<CertFault, AllocError>
    ensures { IfOk result (λ fault. fault_of fault
        ≡ Some (Fails at.now.number (unwrap_or (place_in (members (program_at at.now) at.now.task.group) fun.0) 0 ∷ []) index)) }
{
    let _source = at.program.source();
    let _groups = at.program.groups();
    let place = place_of(members(at.program, at.task.group), fun);
    Ok(CertFault::Fails {
        block: at.number,
        path: SmallVec::from_slice(at.alloc, &[place as u32])?,
        index,
    })
}

// The target of a block without cost, and then the rules.
fn check_free(
    at: &At<'_, '_>,
    bodies: &[Body<'_>],
    asks: &[Vec<Ask>],
    sigs: &[Sig],
    hints: &[Vec<Hint>],
    budget: u8,
    fun: FunId,
    target: u32,
) -> Result<(), CertFault>
    requires within { GroupWithin (program_at at.now) at.now.task.group (h.budget_of at.now.degree (kind_of at.now.task.kind)) }
    requires few { length bodies.now ≤ 256 }
    requires asked { length asks.now ≡ length bodies.now }
    requires told { length hints.now ≡ length bodies.now }
    requires kind { kind_of at.now.task.kind ≡ Free budget fun.0 target }
    ensures { (held : c.Certificate) (blocks : List c.Block) → IsAt at.now held blocks →
        map body_of bodies.now ≡ (job (program_at at.now) held blocks (task_of at.now.task)).bodies →
        all_asks_of asks.now ≡ asks_by (map body_of bodies.now) →
        Tells result (TargetFinds (program_at at.now) held blocks (task_of at.now.task)
        (map a.sig_of sigs.now) (map a.hints_of hints.now)) }
{
    match missed(at, sigs, budget, fun, target) {
        Err(_) => Err(CertFault::NoMemory),
        Ok(None) => check_rules(at, bodies, asks, sigs, hints),
        Ok(Some(index)) => match miss(at, fun, index) {
            Err(_) => Err(CertFault::NoMemory),
            Ok(fault) => Err(fault),
        },
    }
}

/// The target, and then the rules.
pub fn check_target(
    at: &At<'_, '_>,
    bodies: &[Body<'_>],
    asks: &[Vec<Ask>],
    sigs: &[Sig],
    hints: &[Vec<Hint>],
) -> Result<(), CertFault>
    requires within { GroupWithin (program_at at.now) at.now.task.group (h.budget_of at.now.degree (kind_of at.now.task.kind)) }
    requires few { length bodies.now ≤ 256 }
    requires asked { length asks.now ≡ length bodies.now }
    requires told { length hints.now ≡ length bodies.now }
    ensures { (held : c.Certificate) (blocks : List c.Block) → IsAt at.now held blocks →
        map body_of bodies.now ≡ (job (program_at at.now) held blocks (task_of at.now.task)).bodies →
        all_asks_of asks.now ≡ asks_by (map body_of bodies.now) →
        Tells result (TargetFinds (program_at at.now) held blocks (task_of at.now.task)
        (map a.sig_of sigs.now) (map a.hints_of hints.now)) }
{
    match at.task.kind {
        TaskKind::Free {
            budget,
            fun,
            target,
        } => check_free(at, bodies, asks, sigs, hints, budget, fun, target),
        TaskKind::With(_) => check_rules(at, bodies, asks, sigs, hints),
    }
}
