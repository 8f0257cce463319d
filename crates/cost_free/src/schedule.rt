// The schedule of a program.
ghost use Rattle.std.specs.Prelude.{◌≡◌, ◌∷◌, ◌++◌, [], None, Vec, map, true, false, IfOk, OnOk, OnErr, IsErrOf};
ghost use Rattle.std.specs.Option.{option_map};
ghost use Rattle.base_poly.specs.Read.{context_of};
ghost use Rattle.cost_free.specs.Schedule.{next};
ghost use Rattle.cost_free.specs.Refused.{next_in, IsRefused, plan_in, with_outcome, gone_on};
ghost use Rattle.cost_free.specs.Walk.{Stands, Taken, StaysAt, first, advanced};
ghost use Rattle.cost_free.specs.Read.{lists_of, task_of, outcome_of, outcomes_of, plan_of, place_of};

use crate::plan::Plan;
use crate::task::{Done, Task};
use crate::walk::{Walk, advance, begin, take};
use base_poly::IndexFault;
use call_groups::Groups;
use raml_syntax::Ty;
use std::alloc::{AllocError, Global};
use std::marker::Model;

/// The schedule of a program at a degree, after the outcomes so far.
///
/// It makes the tasks of a group once, when it comes to the group.
#[derive(Drop)]
pub struct Schedule<'a> {
    alloc: Global,
    plan: Plan<'a>,
    done: Vec<(Task, Done)>,
    walk: Walk,
}

impl<'a> Model for Schedule<'a> {
    ghost use Rattle.std.specs.Coded.{codes};
    ghost use Rattle.raml_syntax.specs.contracts.ty.Ty as ty;
    ghost use Rattle.cost_free.specs.Refused.{Course};
    ghost use Rattle.cost_free.specs.Walk.{Stands};
    ghost use Rattle.cost_free.specs.Read.{lists_of, plan_of, outcomes_of, place_of};

    ghost Value = { Course };

    ghost coded = { Prim.hlevel (codes, ty.the_row.coded) };

    ghost view = { λ schedule. record {
      results = schedule.plan.results.now;
      groups = lists_of schedule.plan.groups.now;
      degree = schedule.plan.degree;
      work = schedule.plan.work;
      done = outcomes_of schedule.done.items;
    } };

    ghost invariant = { λ schedule. Stands (plan_of schedule.plan) (outcomes_of schedule.done.items) (place_of schedule.walk) };
}

impl<'a> Schedule<'a> {
    /// The schedule before its first task. `results` has the result type of each function, in the order
    /// of the program; `work` says whether each group has a task for work.
    pub fn new(
        alloc: Global,
        results: &'a [Ty],
        groups: &'a Groups,
        degree: u8,
        work: bool,
    ) -> Schedule<'a>
        ensures { result ≡ record { results = results.now; groups = groups.now.list; degree = degree; work = work; done = [] } }
    {
        Schedule {
            alloc,
            plan: plan(results, groups, degree, work),
            done: Vec::new(alloc),
            walk: begin(alloc),
        }
    }

    /// The outcomes so far.
    pub fn done(&self) -> &[(Task, Done)]
        ensures { outcomes_of result.now ≡ self.now.done }
    {
        &self.done
    }

    /// The next task, and None at the end.
    ///
    /// `TooMany` exactly where it is the first of its group, and a function of the group has a result
    /// with more than 2000 indices of degree at most the schedule's.
    pub fn current(&mut self) -> Result<Option<Task>, IndexFault>
        ensures same { self.new ≡ self.old }
        ensures next { IfOk result (λ task. option_map task_of task ≡ next_in (plan_in self.old) self.old.done) }
        ensures fits { OnOk result (IsRefused 2000 (plan_in self.old) self.old.done → ⊥) }
        ensures many { IsErrOf result IndexFault.TooMany → IsRefused 2000 (plan_in self.old) self.old.done }
    {
        advance(self.alloc, self.plan, 2000, &mut self.walk)
    }

    /// Goes past the next task, which came out so; at the end nothing is changed.
    ///
    /// Where it fails the schedule stays as it was. `TooMany` as `current` has it.
    pub fn record(&mut self, outcome: Done) -> Result<(), IndexFault>
        ensures done { OnOk result (self.new ≡ gone_on outcome self.old) }
        ensures kept { OnErr result (self.new ≡ self.old) }
        ensures fits { OnOk result (IsRefused 2000 (plan_in self.old) self.old.done → ⊥) }
        ensures many { IsErrOf result IndexFault.TooMany → IsRefused 2000 (plan_in self.old) self.old.done }
    {
        put(
            self.alloc,
            self.plan,
            &mut self.done,
            &mut self.walk,
            outcome,
        )
    }
}

fn plan<'a>(results: &'a [Ty], groups: &'a Groups, degree: u8, work: bool) -> Plan<'a>
    ensures results { result.results.now ≡ results.now }
    ensures groups { lists_of result.groups.now ≡ groups.now.list }
    ensures degree { result.degree ≡ degree }
    ensures work { result.work ≡ work }
{
    Plan {
        results,
        groups: groups.list(),
        degree,
        work,
    }
}

// Goes past the next task, which came out so.
fn put(
    alloc: Global,
    plan: Plan<'_>,
    done: &mut Vec<(Task, Done)>,
    walk: &mut Walk,
    outcome: Done,
) -> Result<(), IndexFault>
    requires { Stands (plan_of plan) (outcomes_of done.old.items) (place_of walk.old) }
    ensures stands { Stands (plan_of plan.entry) (outcomes_of done.new.items) (place_of walk.new) }
    ensures done { OnOk result (outcomes_of done.new.items
        ≡ with_outcome outcome (next_in (plan_of plan.entry) (outcomes_of done.old.items)) (outcomes_of done.old.items)) }
    ensures kept { OnErr result (done.new.items ≡ done.old.items) }
    ensures fits { OnOk result (IsRefused 2000 (plan_of plan.entry) (outcomes_of done.old.items) → ⊥) }
    ensures many { IsErrOf result IndexFault.TooMany → IsRefused 2000 (plan_of plan.entry) (outcomes_of done.old.items) }
{
    match advance(alloc, plan, 2000, walk)? {
        None => Ok(()),
        Some(task) => {
            append(done, walk, (task, outcome))?;
            Ok(())
        }
    }
}

// Appends the entry, and goes past the task at hand.
fn append(
    done: &mut Vec<(Task, Done)>,
    walk: &mut Walk,
    entry: (Task, Done),
) -> Result<(), AllocError>
    ensures done { OnOk result (done.new.items ≡ done.old.items ++ entry ∷ []) }
    ensures kept { OnErr result (done.new.items ≡ done.old.items) }
    ensures taken { OnOk result (Taken (place_of walk.old) (outcome_of entry) (place_of walk.new)) }
    ensures stays { OnErr result (StaysAt (place_of walk.old) (place_of walk.new)) }
{
    done.push(entry)?;
    match take(walk, &entry) {
        Ok(()) => Ok(()),
        Err(fault) => {
            done.pop();
            Err(fault)
        }
    }
}

// Goes past the tasks that are done, whatever their groups are. False where there were fewer tasks.
fn follow(
    alloc: Global,
    plan: Plan<'_>,
    done: &[(Task, Done)],
    walk: &mut Walk,
) -> Result<bool, AllocError>
    requires { Stands (plan_of plan) [] (place_of walk.old) }
    ensures stands { IfOk result (λ on. on ≡ true → Stands (plan_of plan.entry) (outcomes_of done.now) (place_of walk.new)) }
    ensures ended { IfOk result (λ on. on ≡ false → next_in (plan_of plan.entry) (outcomes_of done.now) ≡ None) }
{
    for entry in done {
        match reach(alloc, plan, walk)? {
            None => return Ok(false),
            Some(_) => take(walk, entry)?,
        }
    }
    Ok(true)
}

// Goes to the next open task, however many indices there are.
fn reach(alloc: Global, plan: Plan<'_>, walk: &mut Walk) -> Result<Option<Task>, AllocError>
    ensures place { OnOk result (place_of walk.new ≡ advanced (plan_of plan.entry) (place_of walk.old)) }
    ensures next { IfOk result (λ task. option_map task_of task ≡ first (place_of walk.new).left) }
{
    match advance(alloc, plan, usize::MAX, walk) {
        Ok(task) => Ok(task),
        // so many indices have no room in memory
        Err(_) => Err(AllocError),
    }
}

/// The next task of the schedule after those that are done, and None at its end. `results` has the
/// result type of each function, in the order of the program; `work` says whether each group has a task
/// for work.
///
/// `TooMany` exactly where the next task is the first of its group, and a function of the group has a
/// result with more than 2000 indices of degree at most `d`.
pub fn next(
    alloc: Global,
    results: &[Ty],
    groups: &Groups,
    d: u8,
    work: bool,
    done: &[(Task, Done)],
) -> Result<Option<Task>, IndexFault>
    ensures next { IfOk result
        (λ task. option_map task_of task ≡ next (context_of results.now) groups.now.list d work (outcomes_of done.now)) }
    ensures fits { OnOk result
        (IsRefused 2000 (record {
          results = context_of results.now;
          groups = groups.now.list;
          degree = d;
          work = work;
        }) (outcomes_of done.now) → ⊥) }
    ensures many { IsErrOf result IndexFault.TooMany →
        IsRefused 2000 (record {
          results = context_of results.now;
          groups = groups.now.list;
          degree = d;
          work = work;
        }) (outcomes_of done.now) }
{
    let plan = plan(results, groups, d, work);
    let mut walk = begin(alloc);
    if follow(alloc, plan, done, &mut walk)? {
        advance(alloc, plan, 2000, &mut walk)
    } else {
        Ok(None)
    }
}
