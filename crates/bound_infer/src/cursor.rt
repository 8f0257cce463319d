// The inference, task by task.
ghost use Rattle.std.specs.Prelude.{◌≡◌, ◌≤◌, IfOk, IfErr, OnOk};
ghost use Rattle.simplex.specs.Choosing.{IsChooser};
ghost use Rattle.simplex_checked.specs.Choosing.{AnswersByOne};
ghost use Rattle.infer_spec.specs.Courses.{IsOver};
ghost use Rattle.infer_spec.specs.Good.{AllLeast};
ghost use Rattle.infer_spec.specs.States.{start};
ghost use Rattle.rules_plan.specs.Read.{program_in};
ghost use Rattle.bound_infer.specs.After.{IsAfter};
ghost use Rattle.bound_infer.specs.Cursor.{IsOnCourse, IsSame, IsAnalysisOf};
ghost use Rattle.bound_infer.specs.Inferred.{IsInferred, InferCause};
ghost use Rattle.bound_infer.specs.Keeping.{state_of, analysis_in, ByEach};

use crate::ending::ended;
use crate::inference::ordered;
use crate::progress::Progress;
use crate::refusal::InferFault;
use crate::run::{Run, begin};
use crate::solver::Solver;
use crate::step::step;
use crate::verified::Verified;
use frac128::Frac;
use infer_spec::laws::{courses_certify, courses_stay_within, none_too_large};
use infer_systems_laws::laws::{limits_are_told, systems_generate};
use rules_plan::KeptPlans;
use share_normal::NormProgram;
use simplex::Chooser;
use std::alloc::{AllocError, Global};

/// The analysis of a program at a degree, for ticks, cells and work, which goes on task by task with the
/// chooser's rule of the entering column.
#[derive(Drop)]
pub struct Inference<'p, 'a, 'c, F: Fn(&[Frac]) -> Option<usize>> {
    alloc: Global,
    program: &'p NormProgram<'a>,
    degree: u8,
    chooser: &'c Chooser<F>,
    run: Run<'p>,
    kept: KeptPlans,
}

impl<'p, 'a, 'c, F: Fn(&[Frac]) -> Option<usize>> Inference<'p, 'a, 'c, F> {
    /// Before the first task.
    pub fn new(
        alloc: Global,
        program: &'p NormProgram<'a>,
        degree: u8,
        chooser: &'c Chooser<F>,
    ) -> Result<Self, AllocError>
        requires least_degree { 1 ≤ degree }
        requires most_degree { degree ≤ 4 }
        requires chooses { IsChooser F.Fn chooser.now }
        requires answers { AnswersByOne F.Fn chooser.now }
        ensures analysis { IfOk result (IsAnalysisOf program.now degree chooser.now) }
        ensures course { IfOk result (IsOnCourse F.Fn) }
        ensures start { IfOk result (λ inference. state_of inference.run ≡ start) }
    {
        ordered(program);
        Ok(Inference {
            alloc,
            program,
            degree,
            chooser,
            run: begin(alloc, program, degree)?,
            kept: KeptPlans::new(alloc),
        })
    }

    /// Tries the next task, with at most so many pivots. Where it takes more, nothing has changed, and it may be
    /// tried again. After an `Err` the analysis goes on no more.
    pub fn step(&mut self, most: Option<usize>) -> Result<Progress, InferFault>
        requires callable { F.IsAlwaysCallable self.old.chooser.now }
        requires course { IsOnCourse F.Fn self.old }
        ensures same { IsSame self.old self.new }
        ensures course { OnOk result (IsOnCourse F.Fn self.new) }
        ensures steps { IfOk result (λ progress. ByEach F.Fn self.old.chooser.now
            (λ pick. IsAfter (analysis_in self.old.program.now self.old.degree pick) most
            (state_of self.old.run) (state_of self.new.run) progress)) }
        ensures fault { IfErr result (λ fault. ByEach F.Fn self.old.chooser.now
            (λ pick. InferCause (analysis_in self.old.program.now self.old.degree pick) fault)) }
    {
        let solver = Solver {
            chooser: self.chooser,
            most,
        };
        step(
            self.alloc,
            self.program,
            self.degree,
            &mut self.run,
            &mut self.kept,
            &solver,
        )
    }

    /// The certificate of the course, whose solved blocks are least, where there is no task left. Otherwise the
    /// place at which its check stops is told.
    pub fn finish(self) -> Result<Verified<'p, 'a>, InferFault>
        requires course { IsOnCourse F.Fn self }
        requires over { ByEach F.Fn self.chooser.now (λ pick. IsOver (analysis_in self.program.now self.degree pick) (state_of self.run)) }
        ensures program { IfOk result (λ verified. verified.program ≡ self.entry.program.now) }
        ensures course { IfOk result (λ verified. ByEach F.Fn self.entry.chooser.now
            (λ pick. IsInferred (analysis_in self.entry.program.now self.entry.degree pick) verified.certificate)) }
        ensures least { IfOk result (λ verified. AllLeast (program_in self.entry.program.now) verified.certificate) }
        ensures fault { IfErr result (λ fault. ByEach F.Fn self.entry.chooser.now
            (λ pick. InferCause (analysis_in self.entry.program.now self.entry.degree pick) fault)) }
    {
        systems_generate();
        limits_are_told();
        courses_certify();
        courses_stay_within();
        none_too_large();
        ended(self.alloc, self.program, self.degree, self.run, self.kept)
    }
}
