// The check of a solved block.
ghost use Rattle.std.specs.Prelude.{◌≡◌, ◌≤◌, List, map, length, Some, IfOk};
ghost use Rattle.std.specs.Option.{option_map};
ghost use Rattle.cost_free.specs.Read.{task_of};
ghost use Rattle.annot_types.specs.Certificate as c;
ghost use Rattle.annot_types.specs.Read as a;
ghost use Rattle.rules_plan.specs.Read.{body_of};
ghost use Rattle.cert_check.specs.At.{program_at, IsAt, Tells};
ghost use Rattle.cert_check.specs.Asking.{all_asks_of};
ghost use Rattle.cert_check.specs.Finds.{asks_by, at_block, job, job_fault, RulesFind};
ghost use Rattle.cert_check.specs.Judged.{found_of, verdict_of};
ghost use Rattle.cert_check.specs.Read.{fault_of};

use crate::amounts::all_sides;
use crate::at::{At, budget_of, mode_of};
use crate::fault::CertFault;
use crate::judge::{FaultJudge, Found, Trouble};
use crate::rules::judged;
use annot_types::{Hint, Sig};
use rules_plan::Body;
use rules_walk::Ask;
use std::alloc::AllocError;

// A condition with trouble, in the block of this number.
fn fault_at(found: Found, block: usize) -> CertFault
    ensures { fault_of result ≡ Some (at_block block (found_of found)) }
{
    match found.trouble {
        Trouble::Leaves => CertFault::Leaves {
            block,
            path: found.path,
            index: found.index,
        },
        Trouble::Fails => CertFault::Fails {
            block,
            path: found.path,
            index: found.index,
        },
    }
}

fn tell(judge: FaultJudge, block: usize) -> Result<(), CertFault>
    ensures { Tells result (λ found. found ≡ option_map (at_block block) (verdict_of judge)) }
{
    match judge.found {
        None => Ok(()),
        Some(found) => Err(fault_at(found, block)),
    }
}

// The walks through the bodies, whose plans and asks these are.
fn judge_rules(
    at: &At<'_, '_>,
    bodies: &[Body<'_>],
    asks: &[Vec<Ask>],
    sigs: &[Sig],
    hints: &[Vec<Hint>],
) -> Result<FaultJudge, AllocError>
    requires few { length bodies.now ≤ 256 }
    requires asked { length asks.now ≡ length bodies.now }
    requires told { length hints.now ≡ length bodies.now }
    ensures { IfOk result (λ judge. (held : c.Certificate) (blocks : List c.Block) → IsAt at.now held blocks →
        map body_of bodies.now ≡ (job (program_at at.now) held blocks (task_of at.now.task)).bodies →
        all_asks_of asks.now ≡ asks_by (map body_of bodies.now) →
        verdict_of judge ≡ job_fault (job (program_at at.now) held blocks (task_of at.now.task))
        (map a.sig_of sigs.now) (map a.hints_of hints.now)) }
{
    let group = all_sides(at.alloc, bodies, sigs)?;
    let known = at.earlier.known(
        at.scale,
        budget_of(at.degree, at.task.kind) as usize,
        &group,
    );
    judged(at.alloc, &known, bodies, mode_of(at.task.kind), asks, hints)
}

/// The rules.
pub fn check_rules(
    at: &At<'_, '_>,
    bodies: &[Body<'_>],
    asks: &[Vec<Ask>],
    sigs: &[Sig],
    hints: &[Vec<Hint>],
) -> Result<(), CertFault>
    requires few { length bodies.now ≤ 256 }
    requires asked { length asks.now ≡ length bodies.now }
    requires told { length hints.now ≡ length bodies.now }
    ensures { (held : c.Certificate) (blocks : List c.Block) → IsAt at.now held blocks →
        map body_of bodies.now ≡ (job (program_at at.now) held blocks (task_of at.now.task)).bodies →
        all_asks_of asks.now ≡ asks_by (map body_of bodies.now) →
        Tells result (RulesFind (program_at at.now) held blocks (task_of at.now.task) (map a.sig_of sigs.now) (map a.hints_of hints.now)) }
{
    match judge_rules(at, bodies, asks, sigs, hints) {
        Ok(judge) => tell(judge, at.number),
        Err(_) => Err(CertFault::NoMemory),
    }
}
