// What the system of a declared bound comes to.
ghost use Rattle.std.specs.Prelude.{◌≡◌, ◌<◌, ◌^◌, ℕ, ℤ, List, Option, IfOk, IfErr};
ghost use Rattle.simplex_spec.specs.Tableaux.{right};
ghost use Rattle.simplex_spec.specs.Courses.{rule_by};
ghost use Rattle.simplex.specs.Choosing.{IsChooser};
ghost use Rattle.simplex_checked.specs.Choosing.{AnswersBy, AnswersByOne};
ghost use Rattle.simplex_checked.specs.Alone.{IsAlone, StopsAlone};
ghost use Rattle.linear_rows.specs.Systems.{IsSystem};
ghost use Rattle.bound_contract.specs.declared.site.Site.{Site as At};
ghost use Rattle.bound_contract.specs.Sites.{system_at, FineAt, StopsWith, IsNotLeast};

use crate::fault::{DecideFault, DeclAt};
use crate::laws::seen_is_first;
use crate::site::Site;
use frac128::Frac;
use linear_rows::System;
use simplex::Chooser;
use simplex_checked::{Answer, AnswerFault, answer_alone};

// Why it has no answer.
fn answer_fault(fault: AnswerFault) -> DecideFault
    requires { IsNotLeast fault }
    ensures { (site : At) (pick : List ℤ → ℤ → Option ℕ) → IsSystem (system_at site) → FineAt site pick →
        StopsAlone (rule_by pick) (system_at site) fault → StopsWith site pick result }
{
    seen_is_first();
    match fault {
        AnswerFault::Solve {
            pivots,
            row,
            column,
        } => DecideFault::Leaves(DeclAt::Solve {
            pivots,
            row,
            col: column,
        }),
        AnswerFault::Scale { entry } => DecideFault::Leaves(DeclAt::Scale { entry }),
        AnswerFault::Refute { column } => DecideFault::Leaves(DeclAt::Refute { column }),
        AnswerFault::NoMemory => DecideFault::NoMemory,
        AnswerFault::Least { .. } => unreachable!(),
    }
}

/// A solution of the system, or a vector that refutes it.
pub(crate) fn answered<F: Fn(&[Frac]) -> Option<usize>>(
    site: &Site<'_, '_, '_>,
    system: &System,
    chooser: &Chooser<F>,
) -> Result<Answer, DecideFault>
    requires callable { F.IsAlwaysCallable chooser.now }
    requires chooses { IsChooser F.Fn chooser.now }
    requires one { AnswersByOne F.Fn chooser.now }
    requires system { system.now ≡ system_at site.now }
    requires few { right system.now < 2 ^ 32 }
    requires fine { (pick : List ℤ → ℤ → Option ℕ) → FineAt site.now pick }
    ensures answer { IfOk result
        (λ answer. (pick : List ℤ → ℤ → Option ℕ) → AnswersBy F.Fn chooser.now pick → IsAlone (rule_by pick) (system_at site.now) answer) }
    ensures first { IfErr result
        (λ fault. (pick : List ℤ → ℤ → Option ℕ) → AnswersBy F.Fn chooser.now pick → StopsWith site.now pick fault) }
{
    let _rows = system.rows();
    match answer_alone(site.alloc, system, chooser) {
        Ok(answer) => Ok(answer),
        Err(fault) => Err(answer_fault(fault)),
    }
}
