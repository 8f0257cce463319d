// Plans of the bodies of a group.
ghost use Rattle.std.specs.Prelude.{◌≡◌, ◌≤◌, ℕ, List, [], map, slice_get, Some, IfOk, IfSome, OnOk, IsErrOf, IsTrue};
ghost use Rattle.std.specs.List.{All};
ghost use Rattle.call_groups.specs.Read.{ids_of};
ghost use Rattle.normal_spec.specs.Read.{fun_of, funs_of};
ghost use Rattle.annot_types.specs.Certificate as c;
ghost use Rattle.cost_free.specs.Blocked.{row};
ghost use Rattle.annot_types.specs.Program.{Program, members};
ghost use Rattle.rules_spec.specs.Plan.{Ends};
ghost use Rattle.rules_spec.specs.Asked.{asked};
ghost use Rattle.rules_walk.specs.Asks.{asks_of};
ghost use Rattle.rules_walk.specs.Place.{body_walked};
ghost use Rattle.rules_walk.specs.Read.{plan_of, hints_of, known_of, mode_of};
ghost use Rattle.rules_walk.specs.Filled.{table_of};
ghost use Rattle.rules_walk.specs.Remembers.{TellsUses};
ghost use Rattle.rules_plan.specs.Given.{given_of, made_of};
ghost use Rattle.rules_plan.specs.Read.{program_in, function_of, over_of, body_of, group_bodies, GroupWithin, ArePlansIn, ArePlansOf};
ghost use Rattle.rules_plan.specs.Read.{AreBodies, IsBody};
ghost use Rattle.rules_plan.specs.Within.{FunctionWithin};

use crate::env::{Env, Reach};
use crate::fault::PlanFault;
use crate::plan::plans;
use crate::small::is_small;
use crate::tuples::{context_size, size};
use crate::weight::weight;
use crate::within::check;
use call_groups::Groups;
use normal_spec::NormFun;
use raml_syntax::{FunId, Ty};
use rules_walk::{Ask, Earlier, Hint, Judge, Kind, Known, Mode, Plan, Usage, asked, walk_body};
use share_normal::{NormFuns, NormProgram};
use std::alloc::{AllocError, Global};
use std::slice;

/// The plan of a function's body, and how many positions its arguments and its result have.
#[derive(Drop)]
pub struct FunctionPlan {
    pub plan: Plan,
    pub args: usize,
    pub result: usize,
}

/// The plans of the functions of a group at a budget. Which signatures of earlier blocks their calls may
/// take is told beside them, so that they serve for all tasks of the group at this budget.
#[derive(Drop)]
pub struct GroupPlans {
    pub group: u32,
    pub budget: u8,
    pub functions: Vec<FunctionPlan>,
    weight: usize,
}

/// A function of a group over earlier blocks: the plan of its body at a budget, for each function of the
/// program the blocks whose signatures its calls may take, and how many positions its arguments and its
/// result have.
#[derive(Drop)]
pub struct Body<'k> {
    pub plan: &'k Plan,
    pub budget: usize,
    pub uses: &'k [Vec<Usage>],
    pub args: usize,
    pub result: usize,
}

impl Body<'_> {
    /// The hints that its walk asks for.
    pub fn asked(&self, alloc: Global) -> Result<Vec<Ask>, AllocError>
        ensures { IfOk result (λ asks. asks_of asks.items ≡ asked (body_of self.now).plan) }
    {
        asked(alloc, self.plan, self.budget, self.uses)
    }

    /// Hears the conditions of its walk, with its signature at this place of the group, and gives the
    /// hints that they leave.
    pub fn walk<'h, T: Kind, J: Judge<T>>(
        &self,
        alloc: Global,
        known: &Known<'_, T>,
        mode: Mode,
        place: u32,
        hints: &'h [Hint<T>],
        judge: &mut J,
    ) -> Result<&'h [Hint<T>], AllocError>
        ensures heard { OnOk result (J.verdict judge.new
            ≡ J.after (J.verdict judge.old)
            (body_walked T.kind (known_of known.now) (body_of self.now).plan (mode_of mode) place (hints_of hints.now)).found) }
        ensures left { IfOk result (λ out. hints_of out.now
            ≡ (body_walked T.kind (known_of known.now) (body_of self.now).plan (mode_of mode) place (hints_of hints.now)).left) }
    {
        walk_body(alloc, known, self.plan, mode, place, hints, judge)
    }
}

impl GroupPlans {
    /// Whether they are of this group and this budget.
    pub(crate) fn is_of(&self, group: u32, budget: u8) -> bool
        ensures { IsTrue result → (self.now.group ≡ group) × (self.now.budget ≡ budget) }
    {
        self.group == group && self.budget == budget
    }

    /// About how many entries their maps have.
    pub(crate) fn weight(&self) -> usize {
        self.weight
    }

    /// The same over these blocks.
    pub fn over<'k>(
        &'k self,
        alloc: Global,
        earlier: &'k Earlier,
    ) -> Result<Vec<Body<'k>>, AllocError>
        ensures { IfOk result (λ made. (P : Program) (group budget : ℕ) (blocks : List c.Block) →
            ArePlansOf P group budget self.now → TellsUses P blocks earlier.now →
            map body_of made.items ≡ group_bodies P group blocks budget) }
    {
        over(alloc, &self.functions, self.budget as usize, earlier.uses())
    }
}

// Functions whose calls may take signatures of these blocks.
fn over<'k>(
    alloc: Global,
    functions: &'k [FunctionPlan],
    budget: usize,
    uses: &'k [Vec<Usage>],
) -> Result<Vec<Body<'k>>, AllocError>
    ensures { IfOk result (λ made. map body_of made.items ≡ map (over_of (table_of uses.now) budget) functions.now) }
{
    let mut made = Vec::with_capacity(alloc, functions.len())?;
    for function in functions {
        made.push(Body {
            plan: &function.plan,
            budget,
            uses,
            args: function.args,
            result: function.result,
        })?;
    }
    Ok(made)
}

// The functions of a group; none where there is no such group.
fn members(groups: &Groups, group: u32) -> &[FunId]
    ensures { ids_of result.now ≡ row groups.now.list group }
{
    match groups.list().get(group as usize) {
        Some(members) => members,
        None => &[],
    }
}

// The walk of the function's body is within its limits.
#[tactic(auto, using(crate::proofs::Grouped::no_function, crate::proofs::Grouped::no_result, crate::proofs::Grouped::function_there))]
fn check_function(
    alloc: Global,
    functions: &NormFuns,
    results: &[Ty],
    fun: FunId,
    budget: u8,
) -> Result<(), PlanFault>
    ensures fits { OnOk result (FunctionWithin 2000 (slice_get (funs_of results.now functions.now) fun.0) budget) }
    ensures many { IsErrOf result PlanFault.TooMany → FunctionWithin 2000 (slice_get (funs_of results.now functions.now) fun.0) budget → ⊥ }
{
    let place = fun.0 as usize;
    if place >= functions.len() {
        return Ok(());
    }
    if place >= results.len() {
        return Ok(());
    }
    let function = functions.fun(fun);
    if is_small(function, &results[place], budget) {
        return Ok(());
    }
    check(
        alloc,
        &function.body,
        &function.params,
        &results[place],
        budget,
    )
}

// Those of all functions of the group.
fn check_all(
    alloc: Global,
    functions: &NormFuns,
    results: &[Ty],
    group: &[FunId],
    budget: u8,
) -> Result<(), PlanFault>
    ensures fits { OnOk result
        (All (λ f. FunctionWithin 2000 (slice_get (funs_of results.now functions.now) f) budget) (ids_of group.now)) }
    ensures many { IsErrOf result PlanFault.TooMany → All
        (λ f. FunctionWithin 2000 (slice_get (funs_of results.now functions.now) f) budget) (ids_of group.now) → ⊥ }
{
    for place in 0..group.len() {
        check_function(alloc, functions, results, group[place], budget)?;
    }
    Ok(())
}

// The plan at the greatest budget.
fn greatest(plans: Vec<Box<Plan>>) -> Result<Plan, AllocError>
    ensures { IfOk result (λ plan. slice_get (made_of plans.items) 0 ≡ Some (plan_of plan)) }
{
    match plans.into_iter().next() {
        Some(plan) => Ok(Box::into_inner(plan)),
        None => Err(AllocError),
    }
}

// A function with its plan.
fn with_plan(env: &Env<'_>, function: &NormFun, ty: &Ty) -> Result<FunctionPlan, AllocError>
    requires low { env.now.top ≤ 4 }
    ensures { IfOk result (λ made. IsBody (given_of env.now) (Some (fun_of ty.now function.now)) made) }
{
    let made = plans(env, &function.body, &function.params, ty)?;
    let plan = greatest(made)?;
    let args = context_size(env.alloc, &function.params, env.top)?;
    let result = size(env.alloc, slice::from_ref(ty), env.top)?;
    Ok(FunctionPlan { plan, args, result })
}

// No plan of a function that there is not.
fn without_plan(env: &Env<'_>) -> FunctionPlan
    ensures { function_of result ≡ record { plan = Ends 0 0 []; args = 0; result = 0 } }
{
    FunctionPlan {
        plan: Plan::Ends(0, 0, Vec::new(env.alloc)),
        args: 0,
        result: 0,
    }
}

// A function of the group.
#[tactic(auto, using(crate::proofs::Grouped::no_function, crate::proofs::Grouped::no_result, crate::proofs::Grouped::function_there, crate::proofs::Grouped::none_is))]
fn body_at(env: &Env<'_>, fun: FunId) -> Result<FunctionPlan, AllocError>
    requires low { env.now.top ≤ 4 }
    ensures { IfOk result (λ made. IsBody (given_of env.now) (slice_get (given_of env.now).funs fun.0) made) }
{
    let place = fun.0 as usize;
    if place >= env.functions.len() {
        return Ok(without_plan(env));
    }
    if place >= env.results.len() {
        return Ok(without_plan(env));
    }
    with_plan(env, env.functions.fun(fun), &env.results[place])
}

// All of them.
fn bodies_of(env: &Env<'_>) -> Result<Vec<FunctionPlan>, AllocError>
    requires low { env.now.top ≤ 4 }
    ensures { IfOk result (λ made. AreBodies (given_of env.now) (ids_of env.now.group.now) made.items) }
{
    let group = env.group;
    let mut made = Vec::new(env.alloc);
    for place in 0..group.len() {
        made.push(body_at(env, group[place])?)?;
    }
    Ok(made)
}

// The plans of these functions, which are those of the group.
fn planned(
    alloc: Global,
    program: &NormProgram<'_>,
    functions: &[FunId],
    budget: u8,
) -> Result<Vec<FunctionPlan>, AllocError>
    requires low { budget ≤ 4 }
    ensures { IfOk result (λ made. (group : ℕ) → ids_of functions.now ≡ members (program_in program.now) group →
        map function_of made.items ≡ group_bodies (program_in program.now) group [] budget) }
{
    let env = Env {
        alloc,
        functions: program.functions(),
        results: program.results(),
        group: functions,
        top: budget,
        reach: Reach::Greatest,
    };
    bodies_of(&env)
}

// About how many entries the maps of these plans have.
fn plans_weight(functions: &[FunctionPlan]) -> usize {
    let mut count: usize = 0;
    for function in functions {
        count = count.saturating_add(weight(&function.plan));
    }
    count
}

/// The plans of the functions of a group at a budget.
///
/// `TooMany` where a context or a type that a walk comes to has more than 2000 indices at its budget.
pub fn group_plans(
    alloc: Global,
    program: &NormProgram<'_>,
    group: u32,
    budget: u8,
) -> Result<GroupPlans, PlanFault>
    requires low { budget ≤ 4 }
    ensures plans { IfOk result (ArePlansOf (program_in program.now) group budget) }
    ensures many { IsErrOf result PlanFault.TooMany → GroupWithin (program_in program.now) group budget → ⊥ }
{
    let results = program.results();
    let members = members(program.groups(), group);
    check_all(alloc, program.functions(), results, members, budget)?;
    match planned(alloc, program, members, budget) {
        Ok(functions) => Ok(GroupPlans {
            group,
            budget,
            weight: plans_weight(&functions),
            functions,
        }),
        Err(_) => Err(PlanFault::NoMemory),
    }
}

/// The same, where `last` were made last: these once more, where they are of this group and this budget.
pub fn next_plans(
    alloc: Global,
    program: &NormProgram<'_>,
    last: Option<GroupPlans>,
    group: u32,
    budget: u8,
) -> Result<GroupPlans, PlanFault>
    requires low { budget ≤ 4 }
    requires last { IfSome last (ArePlansIn (program_in program.now)) }
    ensures plans { IfOk result (ArePlansOf (program_in program.now) group budget) }
    ensures many { IsErrOf result PlanFault.TooMany → GroupWithin (program_in program.now) group budget → ⊥ }
{
    match last {
        Some(made) if made.is_of(group, budget) => Ok(made),
        _ => group_plans(alloc, program, group, budget),
    }
}
