// What is decided of a declared bound whose task was tried.
ghost use Rattle.std.specs.Prelude.{◌≡◌, ◌<◌, ◌^◌, ℕ, ℤ, List, Option, IsTrue, IfOk, IfErr, OnOk};
ghost use Rattle.simplex.specs.Choosing.{IsChooser};
ghost use Rattle.simplex_spec.specs.Tableaux.{right};
ghost use Rattle.simplex_spec.specs.Courses.{rule_by};
ghost use Rattle.simplex_checked.specs.Alone.{IsAlone};
ghost use Rattle.simplex_checked.specs.Choosing.{AnswersBy, AnswersByOne};
ghost use Rattle.rules_plan.specs.Read.{ArePlansOf};
ghost use Rattle.bound_contract.specs.Read.{decided_of};
ghost use Rattle.bound_contract.specs.Sites.{program_at, certificate_at, system_at, IsSite, AreBefore, FineAt, ClearAt, IsDecidedAt};
ghost use Rattle.bound_contract.specs.Sites.{StopsAt, StopsWith};

use crate::decision::Decision;
use crate::extended::line_system;
use crate::fault::DecideFault;
use crate::keeping::kept;
use crate::laws::{fine_is_clear, readings_decide};
use crate::site::Site;
use crate::solving::answered;
use frac128::Frac;
use infer_systems_laws::laws::tried_have_tasks;
use linear_rows::System;
use rules_plan::GroupPlans;
use rules_walk::Earlier;
use simplex::Chooser;
use simplex_checked::Answer;

// The system of the bound, by the plans of the group.
fn system_by(
    site: &Site<'_, '_, '_>,
    earlier: &Earlier,
    plans: &GroupPlans,
) -> Result<System, DecideFault>
    requires site { IsSite site.now }
    requires before { AreBefore site.now earlier.now }
    requires plans { ArePlansOf (program_at site.now) site.now.group (certificate_at site.now).degree plans.now }
    ensures made { IfOk result (λ made. made ≡ system_at site.now) }
    ensures few { IfOk result (λ made. right made < 2 ^ 32) }
    ensures fine { OnOk result ((pick : List ℤ → ℤ → Option ℕ) → FineAt site.now pick) }
    ensures first { IfErr result (StopsAt site.now) }
{
    match plans.over(site.alloc, earlier) {
        Ok(bodies) => line_system(site, earlier, &bodies),
        Err(_) => Err(DecideFault::NoMemory),
    }
}

// What its answer decides, and whether the tables serve again.
fn by_answer<'p, 'a, F: Fn(&[Frac]) -> Option<usize>>(
    site: &Site<'_, 'p, 'a>,
    earlier: &mut Earlier,
    plans: &GroupPlans,
    answer: Answer,
    chooser: &Chooser<F>,
) -> Result<(Decision<'p, 'a>, bool), DecideFault>
    requires one { AnswersByOne F.Fn chooser.now }
    requires site { IsSite site.now }
    requires before { AreBefore site.now earlier.old }
    requires plans { ArePlansOf (program_at site.now) site.now.group (certificate_at site.now).degree plans.now }
    requires fine { (pick : List ℤ → ℤ → Option ℕ) → FineAt site.now pick }
    requires answer { (pick : List ℤ → ℤ → Option ℕ) → AnswersBy F.Fn chooser.now pick →
        IsAlone (rule_by pick) (system_at site.now) answer }
    ensures decided { IfOk result (λ answer. IsDecidedAt site.now (decided_of answer.0)) }
    ensures serve { IfOk result (λ answer. IsTrue answer.1 → AreBefore site.now earlier.new) }
    ensures clear { OnOk result ((pick : List ℤ → ℤ → Option ℕ) → AnswersBy F.Fn chooser.now pick → ClearAt site.now pick) }
    ensures first { IfErr result
        (λ fault. (pick : List ℤ → ℤ → Option ℕ) → AnswersBy F.Fn chooser.now pick → StopsWith site.now pick fault) }
{
    fine_is_clear();
    readings_decide();
    tried_have_tasks();
    match answer {
        Answer::Vector { numbers } => Ok((Decision::NotKept { farkas: numbers }, true)),
        Answer::Solution {
            denominator,
            numbers,
        } => match kept(site, earlier, plans, denominator, &numbers) {
            Ok(other) => Ok((Decision::Kept(other), denominator == 1)),
            Err(fault) => Err(fault),
        },
    }
}

/// What is decided by these tables and plans, and whether the tables serve again.
pub(crate) fn decided<'p, 'a, F: Fn(&[Frac]) -> Option<usize>>(
    site: &Site<'_, 'p, 'a>,
    earlier: &mut Earlier,
    plans: &GroupPlans,
    chooser: &Chooser<F>,
) -> Result<(Decision<'p, 'a>, bool), DecideFault>
    requires callable { F.IsAlwaysCallable chooser.now }
    requires chooses { IsChooser F.Fn chooser.now }
    requires one { AnswersByOne F.Fn chooser.now }
    requires site { IsSite site.now }
    requires before { AreBefore site.now earlier.old }
    requires plans { ArePlansOf (program_at site.now) site.now.group (certificate_at site.now).degree plans.now }
    ensures decided { IfOk result (λ answer. IsDecidedAt site.now (decided_of answer.0)) }
    ensures serve { IfOk result (λ answer. IsTrue answer.1 → AreBefore site.now earlier.new) }
    ensures clear { OnOk result ((pick : List ℤ → ℤ → Option ℕ) → AnswersBy F.Fn chooser.now pick → ClearAt site.now pick) }
    ensures first { IfErr result
        (λ fault. (pick : List ℤ → ℤ → Option ℕ) → AnswersBy F.Fn chooser.now pick → StopsWith site.now pick fault) }
{
    let system = match system_by(site, earlier, plans) {
        Ok(system) => system,
        Err(fault) => return Err(fault),
    };
    match answered(site, &system, chooser) {
        Ok(answer) => by_answer(site, earlier, plans, answer, chooser),
        Err(fault) => Err(fault),
    }
}
