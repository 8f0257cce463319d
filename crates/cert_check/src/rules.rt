// The rules of a solved block.
ghost use Rattle.std.specs.Prelude.{◌≡◌, ◌≤◌, ◌<◌, map, length, IfOk, OnOk};
ghost use Rattle.annot_types.specs.Read as a;
ghost use Rattle.rules_spec.specs.Capped.{capped, capped_amount};
ghost use Rattle.rules_spec.specs.Carried.{hint_to};
ghost use Rattle.rules_spec.specs.Faults.{first_fault};
ghost use Rattle.rules_spec.specs.Shape.{hints_at};
ghost use Rattle.rules_walk.specs.Asks.{asks_of};
ghost use Rattle.rules_walk.specs.Read.{known_of, mode_of};
ghost use Rattle.rules_walk.specs.Place.{body_walked};
ghost use Rattle.rules_plan.specs.Read.{body_of};
ghost use Rattle.cert_check.specs.Judged.{verdict_of, after};
ghost use Rattle.cert_check.specs.Asking.{all_asks_of};
ghost use Rattle.cert_check.specs.Finds.{asks_by, hints_by};
ghost use Rattle.cert_check.specs.Judging.{bodies_walked};

use crate::amounts::walked_hints;
use crate::judge::FaultJudge;
use annot_types::Hint;
use rules_plan::Body;
use rules_walk::{Amount, Ask, Known, Mode};
use std::alloc::{AllocError, Global};

/// What the walks through the bodies ask for.
pub fn all_asked(alloc: Global, bodies: &[Body<'_>]) -> Result<Vec<Vec<Ask>>, AllocError>
    ensures { IfOk result (λ asks. all_asks_of asks.items ≡ asks_by (map body_of bodies.now)) }
{
    let mut asks = Vec::with_capacity(alloc, bodies.len())?;
    for body in bodies {
        asks.push(body.asked(alloc)?)?;
    }
    Ok(asks)
}

// The conditions of one body are heard.
fn judge_body(
    alloc: Global,
    known: &Known<'_, Amount>,
    body: &Body<'_>,
    mode: Mode,
    place: usize,
    asks: &[Ask],
    hints: &[Hint],
    judge: &mut FaultJudge,
) -> Result<(), AllocError>
    requires { place < 256 }
    ensures { OnOk result (verdict_of judge.new ≡ after (verdict_of judge.old)
        (body_walked capped (known_of known.now) (body_of body.now).plan (mode_of mode) place
        (map (hint_to capped_amount) (hints_at (asks_of asks.now) (map a.hint_of hints.now)))).found) }
{
    let walked = walked_hints(alloc, asks, hints)?;
    body.walk(alloc, known, mode, place as u32, &walked, judge)?;
    Ok(())
}

/// The first condition of the bodies with trouble.
pub fn judged(
    alloc: Global,
    known: &Known<'_, Amount>,
    bodies: &[Body<'_>],
    mode: Mode,
    asks: &[Vec<Ask>],
    hints: &[Vec<Hint>],
) -> Result<FaultJudge, AllocError>
    requires few { length bodies.now ≤ 256 }
    requires asked { length asks.now ≡ length bodies.now }
    requires told { length hints.now ≡ length bodies.now }
    ensures { IfOk result (λ judge. verdict_of judge
        ≡ first_fault (bodies_walked (known_of known.now) (mode_of mode) 0 (map body_of bodies.now)
        (map (map (hint_to capped_amount)) (hints_by (all_asks_of asks.now) (map a.hints_of hints.now))))) }
{
    let mut judge = FaultJudge { found: None };
    for place in 0..bodies.len() {
        let body = &bodies[place];
        judge_body(
            alloc,
            known,
            body,
            mode,
            place,
            &asks[place],
            &hints[place],
            &mut judge,
        )?;
    }
    Ok(judge)
}
