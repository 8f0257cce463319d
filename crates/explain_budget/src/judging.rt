// Declared bounds, line by line: what is decided of each, and what the analysis found.
ghost use Rattle.std.specs.Prelude.{◌≡◌, ◌<◌, ◌^◌, ℕ, ℤ, suc, true, List, [], ◌∷◌, length, slice_get, Option, Some, option_map};
ghost use Rattle.std.specs.Prelude.{IfOk, IfErr, IfSome, OnOk};
ghost use Rattle.share_normal.specs.Program.{source_in};
ghost use Rattle.rules_plan.specs.Read.{program_in};
ghost use Rattle.annot_types.specs.Certificate.{has_work};
ghost use Rattle.annot_types.specs.Held as held;
ghost use Rattle.annot_types.specs.Held.{Claim, lines_for};
ghost use Rattle.simplex.specs.Choosing.{IsChooser};
ghost use Rattle.simplex_checked.specs.Choosing.{AnswersBy, AnswersByOne};
ghost use Rattle.simplex_checked.specs.Rules.{least_pick};
ghost use Rattle.bound_file.specs.Lines.{Line};
ghost use Rattle.bound_file.specs.Read.{line_of};
ghost use Rattle.bound_contract.specs.Asked.{MayBeAsked};
ghost use Rattle.bound_contract.specs.Read.{decided_of};
ghost use Rattle.contract_report.specs.Told.{VerdictsRefused};
ghost use Rattle.contract_report.specs.Steps as contract;
ghost use Rattle.contract_report.specs.Steps.{AllCanBeAsked, ClearBelow};
ghost use Rattle.explain_verdicts.specs.Reads.{bound_of};
ghost use Rattle.explain_budget.specs.Judging.{bound_in, verdict_of, AreJudged, IsFoundOf};
ghost use Rattle.explain_budget.specs.Steps.{AllAreOver, JudgedAt};

use base_poly::Poly;
use bound_contract::laws::owns_are_there;
use bound_contract::{Decider, Decision};
use bound_file::{DeclLine, Declared};
use bound_infer::Verified;
use contract_report::{VerdictsFault, line_fault};
use explain_verdicts::{Judged, Verdict};
use frac128::Frac;
use simplex::Chooser;
use simplex_checked::least_column;
use std::alloc::{AllocError, Global};

/// What is decided of the bounds that a file declares, with what the certificate has found. The least column of positive
/// gain enters.
///
/// # Errors
///
/// The first line with which a system has more than 2000 rows, or where a number leaves 128 bits.
pub(crate) fn judge_lines(
    alloc: Global,
    verified: &Verified<'_, '_>,
    declared: &Declared,
) -> Result<Vec<Judged>, VerdictsFault>
    requires work { has_work verified.now.certificate ≡ true }
    requires degree { declared.now.degree ≡ verified.now.certificate.degree }
    requires few { length declared.now.lines < 2 ^ 31 }
    requires over { AllAreOver verified.now }
    requires asked { (number : ℕ) (line : Line) → slice_get declared.now.lines number ≡ Some line → MayBeAsked verified.now line }
    ensures judged { IfOk result (λ all. AreJudged (source_in verified.now.program) (program_in verified.now.program)
        verified.now.certificate declared.now.lines all.items) }
    ensures fault { IfErr result
        (VerdictsRefused (program_in verified.now.program) verified.now.certificate least_pick declared.now.lines) }
{
    owns_are_there();
    let checked = verified.checked();
    let _certificate = checked.certificate();
    let _groups = checked.program().groups();
    let chooser = Chooser::new(|gains: &[Frac]| least_column(gains));
    each_line(alloc, verified, declared, &chooser)
}

// By any rule of the entering column.
fn each_line<F: Fn(&[Frac]) -> Option<usize>>(
    alloc: Global,
    verified: &Verified<'_, '_>,
    declared: &Declared,
    chooser: &Chooser<F>,
) -> Result<Vec<Judged>, VerdictsFault>
    requires callable { F.IsAlwaysCallable chooser.now }
    requires chooses { IsChooser F.Fn chooser.now }
    requires one { AnswersByOne F.Fn chooser.now }
    requires work { has_work verified.now.certificate ≡ true }
    requires degree { declared.now.degree ≡ verified.now.certificate.degree }
    requires few { length declared.now.lines < 2 ^ 31 }
    requires over { AllAreOver verified.now }
    requires asked { AllCanBeAsked verified.now declared.now.lines }
    ensures judged { IfOk result (λ all. AreJudged (source_in verified.now.program) (program_in verified.now.program)
        verified.now.certificate declared.now.lines all.items) }
    ensures fault { IfErr result (λ fault. (pick : List ℤ → ℤ → Option ℕ) → AnswersBy F.Fn chooser.now pick →
        VerdictsRefused (program_in verified.now.program) verified.now.certificate pick declared.now.lines fault) }
{
    let mut all = Vec::new(alloc);
    let mut decider = Decider::new(verified.checked());
    for number in 0..declared.lines().len() {
        let judged = judge_line(alloc, &mut decider, verified, declared, number, chooser)?;
        match all.push(judged) {
            Ok(()) => (),
            Err(_) => return Err(VerdictsFault::NoMemory),
        }
    }
    Ok(all)
}

// The line of this number, counted from 0. No place comes at those before it.
fn judge_line<F: Fn(&[Frac]) -> Option<usize>>(
    alloc: Global,
    decider: &mut Decider<'_, '_, '_>,
    verified: &Verified<'_, '_>,
    declared: &Declared,
    number: usize,
    chooser: &Chooser<F>,
) -> Result<Judged, VerdictsFault>
    requires callable { F.IsAlwaysCallable chooser.now }
    requires chooses { IsChooser F.Fn chooser.now }
    requires one { AnswersByOne F.Fn chooser.now }
    requires same { decider.old ≡ verified.now }
    requires work { has_work verified.now.certificate ≡ true }
    requires degree { declared.now.degree ≡ verified.now.certificate.degree }
    requires there { number < length declared.now.lines }
    requires few { length declared.now.lines < 2 ^ 31 }
    requires over { AllAreOver verified.now }
    requires asked { AllCanBeAsked verified.now declared.now.lines }
    requires before { (pick : List ℤ → ℤ → Option ℕ) → AnswersBy F.Fn chooser.now pick →
        ClearBelow verified.now declared.now.lines pick number }
    ensures same { decider.new ≡ verified.now }
    ensures judged { IfOk result (JudgedAt verified.now declared.now.lines number) }
    ensures clear { OnOk result
        ((pick : List ℤ → ℤ → Option ℕ) → AnswersBy F.Fn chooser.now pick → ClearBelow verified.now declared.now.lines pick (suc number)) }
    ensures fault { IfErr result (λ fault. (pick : List ℤ → ℤ → Option ℕ) → AnswersBy F.Fn chooser.now pick →
        VerdictsRefused (program_in verified.now.program) verified.now.certificate pick declared.now.lines fault) }
{
    match decider.decide(alloc, declared, number, chooser) {
        Ok(decision) => match found(alloc, verified, &declared.lines()[number]) {
            Ok(found) => Ok(Judged {
                verdict: verdict_of(&decision),
                found,
            }),
            Err(_) => Err(VerdictsFault::NoMemory),
        },
        Err(fault) => Err(line_fault(&fault, number)),
    }
}

// The verdict by a decision.
fn verdict_of(decision: &Decision<'_, '_>) -> Verdict
    ensures { verdict_of result ≡ contract.verdict_of (decided_of decision.now) }
{
    match decision {
        Decision::Kept(_) => Verdict::Kept,
        Decision::NotKept { .. } => Verdict::NotKept,
        Decision::Calls(callee) => Verdict::Calls(*callee),
    }
}

// The bound that the certificate has of a line's function and meter.
fn found(
    alloc: Global,
    verified: &Verified<'_, '_>,
    line: &DeclLine,
) -> Result<Option<Poly>, AllocError>
    requires fun { line.now.fun.0 < length (source_in verified.now.program) }
    requires work { has_work verified.now.certificate ≡ true }
    requires over { AllAreOver verified.now }
    ensures { IfOk result (λ found. (claim : Claim)
        × (lines_for (program_in verified.now.program) verified.now.certificate line.now.fun.0 line.now.meter
        ≡ held.line line.now.fun.0 line.now.meter claim ∷ [])
        × (option_map bound_of found ≡ bound_in claim)
        × IfSome found (IsFoundOf (source_in verified.now.program) line.now.fun.0)) }
{
    match verified.line(alloc, line.fun, line.meter)? {
        bound_infer::Line::Bound(poly) => Ok(Some(poly)),
        bound_infer::Line::NoBound | bound_infer::Line::Calls(_) => Ok(None),
    }
}
