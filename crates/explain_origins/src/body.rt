// The expressions for which forms stand.
ghost use Rattle.std.specs.Prelude.{◌≡◌, option_map};
ghost use Rattle.raml_syntax.specs.Read.{term_of};
ghost use Rattle.rules_walk.specs.Read.{plan_of};
ghost use Rattle.share_normal.specs.Program.{source_in};
ghost use Rattle.simple_types.specs.Walk.{place};
ghost use Rattle.explain_origins.specs.Paths.{origin_in};

use crate::cursor::Cursor;
use crate::spot::Spot;
use raml_syntax::{Expr, FunId, Pos};
use rules_walk::Plan;
use share_normal::NormProgram;

/// The expression for which the form stands to which a path leads in a function's body; none where it leads to no form,
/// or where there is no such function. The plan is one of the body, at any budget.
pub fn origin<'p>(
    program: &'p NormProgram<'_>,
    fun: FunId,
    plan: &Plan,
    path: &[u32],
) -> Option<&'p Expr>
    ensures { option_map (λ e. term_of e.now) result ≡ origin_in (source_in program.now) fun.0 (plan_of plan.now) path.now }
{
    let function = program.source().funs.get(fun.0 as usize)?;
    let spot = Spot {
        plan,
        form: &program.functions().fun(fun).body,
        cursor: Cursor::of(&function.body),
    };
    spot.origin(path)
}

/// Where an expression stands.
#[tactic(auto, using(crate::proofs::Forms::term_place))]
pub fn place_of(expr: &Expr) -> Pos
    ensures { result.0 ≡ place (term_of expr.now) }
{
    expr.at
}
