// Declared bounds, one after the other.
ghost use Rattle.std.specs.Prelude.{◌≡◌, ◌<◌, ℕ, ℤ, true, List, length, Option, IfOk, IfErr, IfSome, OnOk};
ghost use Rattle.simplex.specs.Choosing.{IsChooser};
ghost use Rattle.simplex_checked.specs.Choosing.{AnswersBy, AnswersByOne};
ghost use Rattle.annot_types.specs.Program.{Program};
ghost use Rattle.annot_types.specs.Certificate.{has_work};
ghost use Rattle.rules_plan.specs.Read.{program_in, AreKept, ArePlansIn, ArePlansOf};
ghost use Rattle.bound_file.specs.Read.{line_of, IsSound};
ghost use Rattle.bound_contract.specs.Fronts.{IsFront};
ghost use Rattle.bound_contract.specs.Asked.{OfLine, MayBeAsked, Decides, BoundsWhereKept, NoneComes, ComesFirst};
ghost use Rattle.bound_contract.specs.Read.{decided_of, place_of, OfPlace};
ghost use Rattle.bound_contract.specs.Sites.{program_at, certificate_at, IsSite, ClearAt, IsDecidedAt, StopsWith};

use crate::deciding::decided;
use crate::decision::Decision;
use crate::fault::DecideFault;
use crate::front::{Front, front_at};
use crate::laws::{calls_exactly, kept_is_bound, owns_are_there};
use crate::own::own_place;
use crate::site::Site;
use annot_types::BlockBody;
use bound_file::{DeclLine, Declared};
use cert_check::Checked;
use frac128::Frac;
use infer_systems_laws::laws::{limits_are_told, normals_are_ordered};
use rules_plan::{GroupPlans, KeptPlans, PlanFault, next_plans};
use simplex::Chooser;
use std::alloc::{AllocError, Global};
use std::marker::Model;

/// Decides declared bounds over a checked certificate. It keeps what walks take from the blocks, and plans:
/// bounds that come in the order of the certificate's blocks take the least time.
#[derive(Drop)]
pub struct Decider<'c, 'p, 'a> {
    checked: &'c Checked<'p, 'a>,
    front: Option<Front>,
    kept: Option<KeptPlans>,
}

impl<'c, 'p, 'a> Model for Decider<'c, 'p, 'a> {
    ghost use Rattle.std.specs.Prelude.{IfSome};
    ghost use Rattle.std.specs.Coded.{codes};
    ghost use Rattle.raml_syntax.specs.contracts.ty.Ty as ty;
    ghost use Rattle.raml_syntax.specs.contracts.tree.Form as source_form;
    ghost use Rattle.raml_syntax.specs.contracts.tree.Expr as source_expr;
    ghost use Rattle.normal_spec.specs.contracts.form.NormForm as form;
    ghost use Rattle.normal_spec.specs.contracts.form.NormExpr as expr;
    ghost use Rattle.rules_plan.specs.Read.{program_in, AreKept};
    ghost use Rattle.cert_check.specs.Checked.{Checking};
    ghost use Rattle.bound_contract.specs.Fronts.{IsFront};

    ghost Value = { Checking };

    ghost coded = { Prim.hlevel (
      codes,
      ty.the_row.coded,
      source_form.the_row.coded,
      source_expr.the_row.coded,
      form.the_row.coded,
      expr.the_row.coded,
    ) };

    ghost view = { λ decider. decider.checked.now };

    ghost invariant = { λ decider. IfSome decider.front (IsFront (program_in decider.checked.now.program) decider.checked.now.certificate)
        × IfSome decider.kept (AreKept (program_in decider.checked.now.program)) };
}

// A decision, and what is kept for the next.
#[derive(Drop)]
struct Step<'p, 'a> {
    decision: Decision<'p, 'a>,
    front: Option<Front>,
    kept: Option<KeptPlans>,
}

// The plans of the group.
fn planned(site: &Site<'_, '_, '_>, kept: &mut KeptPlans) -> Result<GroupPlans, AllocError>
    requires site { IsSite site.now }
    requires kept { AreKept (program_at site.now) kept.old }
    ensures kept { AreKept (program_at site.now) kept.new }
    ensures plans { IfOk result (ArePlansOf (program_at site.now) site.now.group (certificate_at site.now).degree) }
{
    limits_are_told();
    let program = site.checked.program();
    let certificate = site.checked.certificate();
    let degree = certificate.degree;
    let last = kept.take(site.group, degree);
    match next_plans(site.alloc, program, last, site.group, degree) {
        Ok(plans) => Ok(plans),
        Err(PlanFault::NoMemory) => Err(AllocError),
        Err(PlanFault::TooMany) => unreachable!(),
    }
}

// The plans that were kept, or none.
fn kept_or_none(alloc: Global, kept: Option<KeptPlans>) -> KeptPlans
    ensures { (P : Program) → IfSome kept (AreKept P) → AreKept P result }
{
    match kept {
        Some(kept) => kept,
        None => KeptPlans::new(alloc),
    }
}

// These plans with those; none where memory is wanting.
fn with_plans(mut kept: KeptPlans, plans: GroupPlans) -> Option<KeptPlans>
    ensures { (P : Program) → AreKept P kept → ArePlansIn P plans → IfSome result (AreKept P) }
{
    match kept.keep(plans) {
        Ok(()) => Some(kept),
        Err(_) => None,
    }
}

// A bound whose task was tried.
fn tried<'p, 'a, F: Fn(&[Frac]) -> Option<usize>>(
    site: &Site<'_, 'p, 'a>,
    front: Option<Front>,
    kept: Option<KeptPlans>,
    chooser: &Chooser<F>,
) -> Result<Step<'p, 'a>, DecideFault>
    requires callable { F.IsAlwaysCallable chooser.now }
    requires chooses { IsChooser F.Fn chooser.now }
    requires one { AnswersByOne F.Fn chooser.now }
    requires site { IsSite site.now }
    requires front { IfSome front (IsFront (program_at site.now) (certificate_at site.now)) }
    requires kept { IfSome kept (AreKept (program_at site.now)) }
    ensures front { IfOk result (λ step. IfSome step.front (IsFront (program_at site.now) (certificate_at site.now))) }
    ensures kept { IfOk result (λ step. IfSome step.kept (AreKept (program_at site.now))) }
    ensures decided { IfOk result (λ step. IsDecidedAt site.now (decided_of step.decision)) }
    ensures clear { OnOk result ((pick : List ℤ → ℤ → Option ℕ) → AnswersBy F.Fn chooser.now pick → ClearAt site.now pick) }
    ensures first { IfErr result
        (λ fault. (pick : List ℤ → ℤ → Option ℕ) → AnswersBy F.Fn chooser.now pick → StopsWith site.now pick fault) }
{
    let program = site.checked.program();
    let certificate = site.checked.certificate();
    let Ok(mut front) = front_at(site.alloc, program, certificate, front, site.place) else {
        return Err(DecideFault::NoMemory);
    };
    let mut kept = kept_or_none(site.alloc, kept);
    let Ok(plans) = planned(site, &mut kept) else {
        return Err(DecideFault::NoMemory);
    };
    match decided(site, &mut front.earlier, &plans, chooser) {
        Err(fault) => Err(fault),
        Ok((decision, serve)) => Ok(Step {
            decision,
            front: if serve { Some(front) } else { None },
            kept: with_plans(kept, plans),
        }),
    }
}

// What is decided of a bound.
fn decide_line<'p, 'a, F: Fn(&[Frac]) -> Option<usize>>(
    alloc: Global,
    checked: &Checked<'p, 'a>,
    line: &DeclLine,
    front: Option<Front>,
    kept: Option<KeptPlans>,
    chooser: &Chooser<F>,
) -> Result<Step<'p, 'a>, DecideFault>
    requires callable { F.IsAlwaysCallable chooser.now }
    requires chooses { IsChooser F.Fn chooser.now }
    requires one { AnswersByOne F.Fn chooser.now }
    requires work { has_work checked.now.certificate ≡ true }
    requires sound { IsSound line.now }
    requires asked { MayBeAsked checked.now (line_of line.now) }
    requires front { IfSome front (IsFront (program_in checked.now.program) checked.now.certificate) }
    requires kept { IfSome kept (AreKept (program_in checked.now.program)) }
    ensures front { IfOk result (λ step. IfSome step.front (IsFront (program_in checked.now.program) checked.now.certificate)) }
    ensures kept { IfOk result (λ step. IfSome step.kept (AreKept (program_in checked.now.program))) }
    ensures decided { IfOk result (λ step. Decides checked.now (line_of line.now) (decided_of step.decision)) }
    ensures clear { OnOk result
        ((pick : List ℤ → ℤ → Option ℕ) → AnswersBy F.Fn chooser.now pick → NoneComes checked.now (line_of line.now) pick) }
    ensures first { IfErr result (λ fault. (pick : List ℤ → ℤ → Option ℕ) → AnswersBy F.Fn chooser.now pick →
        OfPlace (place_of fault) (ComesFirst checked.now (line_of line.now) pick)) }
{
    owns_are_there();
    normals_are_ordered();
    calls_exactly();
    let program = checked.program();
    let certificate = checked.certificate();
    let _source = program.source();
    let _functions = program.functions();
    let _groups = program.groups();
    let Some(place) = own_place(program, line, &certificate.blocks) else {
        unreachable!()
    };
    let block = &certificate.blocks[place];
    match &block.body {
        BlockBody::Calls { fun } => Ok(Step {
            decision: Decision::Calls(*fun),
            front,
            kept,
        }),
        BlockBody::Solved { .. } | BlockBody::Refuted { .. } => {
            let site = Site {
                alloc,
                checked,
                fun: line.fun,
                meter: line.meter,
                bound: &line.bound,
                place,
                group: block.task.group,
            };
            tried(&site, front, kept, chooser)
        }
    }
}

impl<'c, 'p, 'a> Decider<'c, 'p, 'a> {
    /// Decides over this certificate.
    pub fn new(checked: &'c Checked<'p, 'a>) -> Decider<'c, 'p, 'a>
        ensures { result ≡ checked.now }
    {
        Decider {
            checked,
            front: None,
            kept: None,
        }
    }

    /// Whether the declared bound of this number, counted from 0, is kept: whether an annotation of its
    /// function lies under it, in any block that holds in the place of the certificate's for its meter, over
    /// any multiple of the scales. A bound that is kept is one, in the source and on the machine.
    ///
    /// The first place at which a number leaves 128 bits is told, or that there are too many rows.
    pub fn decide<F: Fn(&[Frac]) -> Option<usize>>(
        &mut self,
        alloc: Global,
        declared: &Declared,
        line: usize,
        chooser: &Chooser<F>,
    ) -> Result<Decision<'p, 'a>, DecideFault>
        requires callable { F.IsAlwaysCallable chooser.now }
        requires chooses { IsChooser F.Fn chooser.now }
        requires one { AnswersByOne F.Fn chooser.now }
        requires work { has_work self.old.certificate ≡ true }
        requires degree { declared.now.degree ≡ self.old.certificate.degree }
        requires there { line < length declared.now.lines }
        requires asked { OfLine declared.now line (MayBeAsked self.old) }
        ensures same { self.new ≡ self.old }
        ensures decided { IfOk result (λ decision. OfLine declared.now line (λ l. Decides self.old l (decided_of decision))) }
        ensures bounds { IfOk result
            (λ decision. OfLine declared.now line (λ l. BoundsWhereKept self.old l declared.now.degree (decided_of decision))) }
        ensures clear { OnOk result
            ((pick : List ℤ → ℤ → Option ℕ) → AnswersBy F.Fn chooser.now pick → OfLine declared.now line (λ l. NoneComes self.old l pick)) }
        ensures first { IfErr result (λ fault. (pick : List ℤ → ℤ → Option ℕ) → AnswersBy F.Fn chooser.now pick →
            OfPlace (place_of fault) (λ place. OfLine declared.now line (λ l. ComesFirst self.old l pick place))) }
    {
        kept_is_bound();
        owns_are_there();
        let checked = self.checked;
        let program = checked.program();
        let _source = program.source();
        let _functions = program.functions();
        let _groups = program.groups();
        let _certificate = checked.certificate();
        let asked = &declared.lines()[line];
        let front = self.front.take();
        let kept = self.kept.take();
        match decide_line(alloc, checked, asked, front, kept, chooser) {
            Err(fault) => Err(fault),
            Ok(
                Step {
                    decision,
                    front,
                    kept,
                },
            ) => {
                self.front = front;
                self.kept = kept;
                Ok(decision)
            }
        }
    }
}

/// The same of one bound alone.
pub fn decide<'p, 'a, F: Fn(&[Frac]) -> Option<usize>>(
    alloc: Global,
    checked: &Checked<'p, 'a>,
    declared: &Declared,
    line: usize,
    chooser: &Chooser<F>,
) -> Result<Decision<'p, 'a>, DecideFault>
    requires callable { F.IsAlwaysCallable chooser.now }
    requires chooses { IsChooser F.Fn chooser.now }
    requires one { AnswersByOne F.Fn chooser.now }
    requires work { has_work checked.now.certificate ≡ true }
    requires degree { declared.now.degree ≡ checked.now.certificate.degree }
    requires there { line < length declared.now.lines }
    requires asked { OfLine declared.now line (MayBeAsked checked.now) }
    ensures decided { IfOk result (λ decision. OfLine declared.now line (λ l. Decides checked.now l (decided_of decision))) }
    ensures bounds { IfOk result
        (λ decision. OfLine declared.now line (λ l. BoundsWhereKept checked.now l declared.now.degree (decided_of decision))) }
    ensures clear { OnOk result
        ((pick : List ℤ → ℤ → Option ℕ) → AnswersBy F.Fn chooser.now pick → OfLine declared.now line (λ l. NoneComes checked.now l pick)) }
    ensures first { IfErr result (λ fault. (pick : List ℤ → ℤ → Option ℕ) → AnswersBy F.Fn chooser.now pick →
        OfPlace (place_of fault) (λ place. OfLine declared.now line (λ l. ComesFirst checked.now l pick place))) }
{
    Decider::new(checked).decide(alloc, declared, line, chooser)
}
