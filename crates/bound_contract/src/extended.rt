// The system of a declared bound: the rows of its task, and those of the bound behind them.
ghost use Rattle.std.specs.Prelude.{◌≡◌, ◌<◌, ◌≤◌, ◌+◌, ◌^◌, ℕ, ℤ, List, Option, map, length, IfOk, IfErr, OnOk};
ghost use Rattle.simplex_spec.specs.Tableaux.{right};
ghost use Rattle.rules_spec.specs.Told.{bodies_of};
ghost use Rattle.rules_plan.specs.Read.{body_of};
ghost use Rattle.bound_contract.specs.Sites.{program_at, certificate_at, before_at, task_at, own_at, system_at, first_at, count_at, IsSite};
ghost use Rattle.bound_contract.specs.Sites.{AreBefore, OwnFits, FineAt, StopsAt};

use crate::fault::{DecideFault, DeclAt};
use crate::laws::seen_is_first;
use crate::rows::{LineFault, add_rows};
use crate::site::Site;
use crate::span::span_of;
use cert_check::members;
use constraint_gen::{GenFault, rows_by};
use infer_systems_laws::laws::{limits_are_told, tried_have_tasks};
use linear_rows::System;
use rules_plan::Body;
use rules_walk::Earlier;

// No system has more rows.
const MOST_ROWS: usize = 2000;

// The rows of the task.
fn own_rows(
    site: &Site<'_, '_, '_>,
    earlier: &Earlier,
    bodies: &[Body<'_>],
) -> Result<System, DecideFault>
    requires site { IsSite site.now }
    requires before { AreBefore site.now earlier.now }
    requires bodies { map body_of bodies.now
        ≡ bodies_of (program_at site.now) (certificate_at site.now).degree (before_at site.now) (task_at site.now) }
    ensures made { IfOk result (λ made. made ≡ own_at site.now) }
    ensures few { IfOk result (λ made. made.unknowns ≤ 2000) }
    ensures fit { OnOk result (OwnFits site.now) }
    ensures first { IfErr result (StopsAt site.now) }
{
    tried_have_tasks();
    limits_are_told();
    seen_is_first();
    let program = site.checked.program();
    let certificate = site.checked.certificate();
    let task = site.task();
    let scale = site.scale();
    let degree = certificate.degree;
    match rows_by(site.alloc, program, degree, earlier, &task, scale, bodies) {
        Ok(made) => Ok(made),
        Err(GenFault::Leaves { row }) => Err(DecideFault::Leaves(DeclAt::Row { row })),
        Err(GenFault::NoMemory) => Err(DecideFault::NoMemory),
        Err(GenFault::TooLarge(_)) => unreachable!(),
    }
}

// Those of the bound behind them, where so many positions have their unknowns from `first` on.
fn with_line(
    site: &Site<'_, '_, '_>,
    mut system: System,
    first: u32,
    count: u32,
) -> Result<System, DecideFault>
    requires site { IsSite site.now }
    requires system { system ≡ own_at site.now }
    requires fit { OwnFits site.now }
    requires first { first ≡ first_at site.now }
    requires count { count ≡ count_at site.now }
    requires few { length (system_at site.now).rows ≤ 2000 }
    requires unknowns { first + count ≤ (own_at site.now).unknowns }
    ensures made { IfOk result (λ made. made ≡ system_at site.now) }
    ensures fine { OnOk result ((pick : List ℤ → ℤ → Option ℕ) → FineAt site.now pick) }
    ensures first { IfErr result (StopsAt site.now) }
{
    tried_have_tasks();
    seen_is_first();
    match add_rows(
        site.alloc,
        &mut system,
        site.bound,
        first,
        count,
        site.scale(),
    ) {
        Ok(()) => Ok(system),
        Err(LineFault::Right { position }) => Err(DecideFault::Leaves(DeclAt::Right { position })),
        Err(LineFault::NoMemory) => Err(DecideFault::NoMemory),
    }
}

/// The system of the bound.
pub(crate) fn line_system(
    site: &Site<'_, '_, '_>,
    earlier: &Earlier,
    bodies: &[Body<'_>],
) -> Result<System, DecideFault>
    requires site { IsSite site.now }
    requires before { AreBefore site.now earlier.now }
    requires bodies { map body_of bodies.now
        ≡ bodies_of (program_at site.now) (certificate_at site.now).degree (before_at site.now) (task_at site.now) }
    ensures made { IfOk result (λ made. made ≡ system_at site.now) }
    ensures few { IfOk result (λ made. right made < 2 ^ 32) }
    ensures fine { OnOk result ((pick : List ℤ → ℤ → Option ℕ) → FineAt site.now pick) }
    ensures first { IfErr result (StopsAt site.now) }
{
    tried_have_tasks();
    seen_is_first();
    let system = match own_rows(site, earlier, bodies) {
        Ok(system) => system,
        Err(fault) => return Err(fault),
    };
    let group = members(site.checked.program(), site.group);
    let span = span_of(bodies, group, site.fun);
    if system.rows().len() + span.count > MOST_ROWS {
        return Err(DecideFault::TooLarge);
    }
    with_line(site, system, span.first as u32, span.count as u32)
}
