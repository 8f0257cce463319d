// The block that a solution stands for.
ghost use Rattle.std.specs.Prelude.{◌≡◌, ◌*◌, ◌≤◌, ◌<ℤ◌, nat_lt, ℕ, ℤ, pos, unsigned_abs, List, length, Option, map, IfOk, IfErr, IfSome};
ghost use Rattle.std.specs.Prelude.{IfNone, OnOk};
ghost use Rattle.raml_num.specs.Sums.{NoneNegative};
ghost use Rattle.annot_types.specs.Read as a;
ghost use Rattle.simplex_integers.specs.Wholes.{most};
ghost use Rattle.rules_systems_laws.specs.Laws.{told};
ghost use Rattle.rules_spec.specs.Told.{bodies_of};
ghost use Rattle.rules_plan.specs.Read.{ArePlansOf};
ghost use Rattle.constraint_gen.specs.Given.{unknowns_of};
ghost use Rattle.bound_contract.specs.Sites.{program_at, certificate_at, before_at, task_at, IsSite, AreBefore, FineAt, ClearAt, RescaleAt};
ghost use Rattle.bound_contract.specs.Sites.{ReadsAt, IsReadAt, IsToldAt, IsToldBy, IsKeptAt, StopsWith};

use crate::fault::{DecideFault, DeclAt};
use crate::laws::{fine_is_clear, read_leaves_alone, readings_decide, seen_is_first};
use crate::site::Site;
use annot_types::{Block, BlockBody};
use cert_check::{CertFault, scale_for};
use constraint_gen::told_by;
use cost_free::TaskKind;
use infer_systems_laws::laws::{limits_are_told, tried_have_tasks};
use other_blocks::laws::rises_fit;
use other_blocks::{OtherBlock, first_leaving, other_by};
use rules_plan::GroupPlans;
use rules_walk::Earlier;
use std::alloc::AllocError;

// The signatures and hints that the numbers are.
fn told(
    site: &Site<'_, '_, '_>,
    earlier: &Earlier,
    plans: &GroupPlans,
    numbers: &[i128],
) -> Result<Block, AllocError>
    requires before { AreBefore site.now earlier.now }
    requires plans { ArePlansOf (program_at site.now) site.now.group (certificate_at site.now).degree plans.now }
    requires one_each { length numbers.now
        ≡ unknowns_of (bodies_of (program_at site.now) (certificate_at site.now).degree (before_at site.now) (task_at site.now)) }
    requires few { length numbers.now ≤ 2000 }
    requires natural { NoneNegative numbers.now }
    ensures { IfOk result (λ block. (x : List ℕ) → numbers.now ≡ map pos x →
        a.block_of block ≡ told (program_at site.now) (certificate_at site.now).degree (before_at site.now) (task_at site.now) x) }
{
    let bodies = plans.over(site.alloc, earlier)?;
    let (sigs, hints) = told_by(site.alloc, &bodies, numbers)?;
    Ok(Block {
        task: site.task(),
        body: BlockBody::Solved { sigs, hints },
    })
}

// Whether the scale of the meter fits when it is multiplied.
fn scale_fits(times: u128, scale: u128) -> bool
    ensures { result ≡ nat_lt (times * scale) most }
{
    match times.checked_mul(scale) {
        Some(product) => i128::try_from(product).is_ok(),
        None => false,
    }
}

// Where a number of an earlier block of the meter, or the scale, leaves when it is multiplied.
fn rescaled(site: &Site<'_, '_, '_>, times: i128) -> Option<usize>
    requires positive { pos 0 <ℤ times }
    requires low { site.now.place ≤ length (certificate_at site.now).blocks }
    ensures some { IfSome result (RescaleAt site.now (unsigned_abs times)) }
    ensures none { IfNone result ((block : ℕ) → RescaleAt site.now (unsigned_abs times) block → ⊥) }
{
    let certificate = site.checked.certificate();
    let scale = scale_for(certificate, TaskKind::With(site.meter));
    let before = &certificate.blocks[..site.place];
    match first_leaving(before, site.meter, times, scale) {
        Some(block) => Some(block),
        None => {
            if scale_fits(times.unsigned_abs(), scale) {
                None
            } else {
                Some(site.place)
            }
        }
    }
}

// The block, where it has no fault as another block of its task.
fn checked_block<'p, 'a>(
    site: &Site<'_, 'p, 'a>,
    earlier: &mut Earlier,
    plans: &GroupPlans,
    block: Block,
    times: i128,
) -> Result<OtherBlock<'p, 'a>, DecideFault>
    requires site { IsSite site.now }
    requires before { AreBefore site.now earlier.old }
    requires plans { ArePlansOf (program_at site.now) site.now.group (certificate_at site.now).degree plans.now }
    requires fine { (pick : List ℤ → ℤ → Option ℕ) → FineAt site.now pick }
    requires positive { pos 0 <ℤ times }
    requires told { IsToldAt site.now (unsigned_abs times) (a.block_of block) }
    requires rises { (number : ℕ) → RescaleAt site.now (unsigned_abs times) number → ⊥ }
    ensures kept { IfOk result (IsKeptAt site.now (unsigned_abs times)) }
    ensures clear { OnOk result
        ((pick : List ℤ → ℤ → Option ℕ) (x : List ℕ) →
        IsToldBy site.now pick (unsigned_abs times) x (a.block_of block) → ClearAt site.now pick) }
    ensures first { IfErr result
        (λ fault. (pick : List ℤ → ℤ → Option ℕ) (x : List ℕ) →
        IsToldBy site.now pick (unsigned_abs times) x (a.block_of block) → StopsWith site.now pick fault) }
    ensures once { times ≡ pos 1 → earlier.new ≡ earlier.old }
{
    seen_is_first();
    fine_is_clear();
    readings_decide();
    read_leaves_alone();
    rises_fit();
    limits_are_told();
    tried_have_tasks();
    match other_by(
        site.alloc,
        site.checked,
        site.place,
        block,
        times,
        plans,
        earlier,
    ) {
        Ok(other) => Ok(other),
        Err(CertFault::Leaves { path, index, .. }) => {
            Err(DecideFault::Leaves(DeclAt::Check { path, index }))
        }
        Err(CertFault::NoMemory) => Err(DecideFault::NoMemory),
        Err(CertFault::Shape { .. }) => unreachable!(),
        Err(CertFault::Fails { .. }) => unreachable!(),
        Err(CertFault::TooLarge { .. }) => unreachable!(),
    }
}

/// The block that a solution over a denominator stands for.
pub(crate) fn kept<'p, 'a>(
    site: &Site<'_, 'p, 'a>,
    earlier: &mut Earlier,
    plans: &GroupPlans,
    times: i128,
    numbers: &[i128],
) -> Result<OtherBlock<'p, 'a>, DecideFault>
    requires site { IsSite site.now }
    requires before { AreBefore site.now earlier.old }
    requires plans { ArePlansOf (program_at site.now) site.now.group (certificate_at site.now).degree plans.now }
    requires fine { (pick : List ℤ → ℤ → Option ℕ) → FineAt site.now pick }
    requires read { IsReadAt site.now times numbers.now }
    ensures kept { IfOk result (IsKeptAt site.now (unsigned_abs times)) }
    ensures clear { OnOk result
        ((pick : List ℤ → ℤ → Option ℕ) (t : ℕ) (x : List ℕ) → times ≡ pos t → numbers.now ≡ map pos x →
        ReadsAt site.now pick t x → ClearAt site.now pick) }
    ensures first { IfErr result
        (λ fault. (pick : List ℤ → ℤ → Option ℕ) (t : ℕ) (x : List ℕ) → times ≡ pos t →
        numbers.now ≡ map pos x → ReadsAt site.now pick t x →
        StopsWith site.now pick fault) }
    ensures once { times ≡ pos 1 → earlier.new ≡ earlier.old }
{
    seen_is_first();
    tried_have_tasks();
    if let Some(block) = rescaled(site, times) {
        return Err(DecideFault::Leaves(DeclAt::Rescale { block }));
    }
    match told(site, earlier, plans, numbers) {
        Ok(block) => checked_block(site, earlier, plans, block, times),
        Err(_) => Err(DecideFault::NoMemory),
    }
}
