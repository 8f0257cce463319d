// Systems solved by the rules of the product.
ghost use Rattle.std.specs.Prelude.{◌<◌, ◌^◌, IfOk, IfErr};
ghost use Rattle.simplex_spec.specs.Tableaux.{right};
ghost use Rattle.simplex_spec.specs.Courses.{rule_by};
ghost use Rattle.simplex_checked.specs.Rules.{least_pick, greatest_pick};
ghost use Rattle.simplex_checked.specs.Answers.{IsAnswer, Stops};

use crate::answer::Answer;
use crate::fault::AnswerFault;
use crate::rules::{greatest_column, least_column};
use crate::solving::whole_answer;
use frac128::Frac;
use linear_rows::System;
use simplex::Chooser;
use std::alloc::Global;

/// What a system comes to where the least column of positive gain enters.
pub fn answer_by_least(alloc: Global, system: &System) -> Result<Answer, AnswerFault>
    requires { right system.now < 2 ^ 32 }
    ensures answer { IfOk result (IsAnswer (rule_by least_pick) system.now) }
    ensures fault { IfErr result (Stops (rule_by least_pick) system.now) }
{
    let chooser = Chooser::new(|gains: &[Frac]| least_column(gains));
    whole_answer(alloc, system, &chooser)
}

/// What it comes to where the least of the columns with the greatest gain enters.
pub fn answer_by_greatest(alloc: Global, system: &System) -> Result<Answer, AnswerFault>
    requires { right system.now < 2 ^ 32 }
    ensures answer { IfOk result (IsAnswer (rule_by greatest_pick) system.now) }
    ensures fault { IfErr result (Stops (rule_by greatest_pick) system.now) }
{
    let chooser = Chooser::new(|gains: &[Frac]| greatest_column(gains));
    whole_answer(alloc, system, &chooser)
}
