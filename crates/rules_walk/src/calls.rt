// What the signatures that a call takes bring.
ghost use Rattle.std.specs.Prelude.{◌≡◌, [], ◌∷◌, map, option_map, IfOk, OnOk};
ghost use Rattle.std.specs.Option.{unwrap_or};
ghost use Rattle.std.specs.Borrow.{Bor};
ghost use Rattle.rules_spec.specs.Walk.{brought, nothing, taken, none_taken, group_sides, cost_sides, free_sides, paid, once, used};
ghost use Rattle.rules_spec.specs.Walk.{refunded, sums};
ghost use Rattle.rules_walk.specs.Read.{mode_of, called_of, sides_of, signature_of, no_signature, signed, known_of, cost_of, lent};
ghost use Rattle.rules_walk.specs.Read.{is_unpaid};

use crate::entries::{bring, bring_multiples, bring_numbers, entries_at, lower_first, nothing};
use crate::kind::Kind;
use crate::known::{Known, Sides, Signature, Signed, args_at, result_at};
use crate::plan::{Called, Mode};
use cost_free::Meter;
use std::alloc::{AllocError, Global};

// A signature of this budget is taken.
fn take<T: Kind>(
    alloc: Global,
    s: &Known<'_, T>,
    called: &Called,
    budget: usize,
    args: &[T],
    result_of: &[T],
    out: &mut Sides<T>,
) -> Result<(), AllocError>
    ensures { OnOk result (sides_of out.new
        ≡ taken T.kind (known_of s.now) (called_of called.now) budget (lent args.now result_of.now) (sides_of out.old)) }
{
    bring(
        alloc,
        &mut out.args,
        entries_at(&called.args_from, budget),
        args,
    )?;
    bring(
        alloc,
        &mut out.result,
        entries_at(&called.result_from, budget),
        result_of,
    )
}

// That of an earlier block is, once.
fn take_numbers<T: Kind>(
    alloc: Global,
    s: &Known<'_, T>,
    called: &Called,
    given: &Signature,
    out: &mut Sides<T>,
) -> Result<(), AllocError>
    ensures { OnOk result (sides_of out.new
        ≡ taken T.kind (known_of s.now) (called_of called.now) given.now.budget
        (cost_sides T.kind (known_of s.now) (signature_of given.now)) (sides_of out.old)) }
{
    bring_numbers(
        alloc,
        &mut out.args,
        entries_at(&called.args_from, given.budget),
        &given.args,
    )?;
    bring_numbers(
        alloc,
        &mut out.result,
        entries_at(&called.result_from, given.budget),
        &given.result,
    )
}

// That of an earlier block is, as often as the entry tells.
fn take_multiples<T: Kind>(
    alloc: Global,
    s: &Known<'_, T>,
    called: &Called,
    given: &Signature,
    entry: &T,
    out: &mut Sides<T>,
) -> Result<(), AllocError>
    ensures { OnOk result (sides_of out.new
        ≡ taken T.kind (known_of s.now) (called_of called.now) given.now.budget
        (free_sides T.kind (known_of s.now) (signature_of given.now) entry.now) (sides_of out.old)) }
{
    bring_multiples(
        alloc,
        &mut out.args,
        entries_at(&called.args_from, given.budget),
        entry,
        &given.args,
    )?;
    bring_multiples(
        alloc,
        &mut out.result,
        entries_at(&called.result_from, given.budget),
        entry,
        &given.result,
    )
}

// No signature.
fn none_taken<T: Kind>(
    alloc: Global,
    s: &Known<'_, T>,
    called: &Called,
) -> Result<Sides<T>, AllocError>
    ensures { IfOk result (λ out. sides_of out ≡ none_taken T.kind (known_of s.now) (called_of called.now)) }
{
    Ok(Sides {
        args: nothing(alloc, called.args)?,
        result: nothing(alloc, called.result)?,
    })
}

// The present block's signature of a function of its group.
fn own<T: Kind>(
    alloc: Global,
    s: &Known<'_, T>,
    called: &Called,
    place: usize,
) -> Result<Sides<T>, AllocError>
    ensures { IfOk result (λ out. sides_of out
        ≡ taken T.kind (known_of s.now) (called_of called.now) s.now.budget (group_sides T.kind (known_of s.now) place)
        (none_taken T.kind (known_of s.now) (called_of called.now))) }
{
    let mut out = none_taken(alloc, s, called)?;
    let args = args_at(s.group, place);
    let result_of = result_at(s.group, place);
    take(alloc, s, called, s.budget, args, result_of, &mut out)?;
    Ok(out)
}

// The signature with cost that an earlier block has for the function.
fn cost<'a, T>(s: &Known<'a, T>, meter: Meter, function: usize) -> Option<&'a Signature>
    ensures { option_map (λ (given : Bor Signature). signature_of given.now) result ≡ cost_of s.now meter function }
{
    let costs = match meter {
        Meter::Ticks => s.ticks,
        Meter::Cells => s.cells,
        Meter::Work => s.work,
    };
    costs.get(function)?.as_ref()
}

// It is taken, where there is one.
fn paid<T: Kind>(
    alloc: Global,
    s: &Known<'_, T>,
    called: &Called,
    given: Option<&Signature>,
) -> Result<Sides<T>, AllocError>
    ensures { IfOk result (λ out. sides_of out
        ≡ paid T.kind (known_of s.now) (called_of called.now)
        (option_map (λ (given : Bor Signature). signature_of given.now) given.entry)) }
{
    let mut out = none_taken(alloc, s, called)?;
    if let Some(signature) = given {
        take_numbers(alloc, s, called, signature, &mut out)?;
    }
    Ok(out)
}

// The signature that is taken once.
fn once<T: Kind>(
    alloc: Global,
    s: &Known<'_, T>,
    called: &Called,
    mode: Mode,
) -> Result<Sides<T>, AllocError>
    ensures { IfOk result (λ out. sides_of out ≡ once T.kind (known_of s.now) (mode_of mode) (called_of called.now) called.now.own) }
{
    match mode {
        Mode::Past => none_taken(alloc, s, called),
        Mode::Own => match called.own {
            None => none_taken(alloc, s, called),
            Some(place) => own(alloc, s, called, place),
        },
        Mode::With(meter) => match called.own {
            None => paid(alloc, s, called, cost(s, meter, called.function)),
            Some(place) => own(alloc, s, called, place),
        },
    }
}

// The first of these signatures that is the function's.
fn find(signatures: &[Signed], function: usize) -> Option<&Signature>
    ensures { unwrap_or (option_map
        (λ (given : Bor Signature). signature_of given.now) result) no_signature ≡ signed function signatures.now }
{
    for signed in signatures {
        if signed.function == function {
            return Some(&signed.signature);
        }
    }
    None
}

// A multiple of a signature of an earlier block is taken.
fn use_multiple<T: Kind>(
    alloc: Global,
    s: &Known<'_, T>,
    called: &Called,
    block: u32,
    entry: &T,
    out: &mut Sides<T>,
) -> Result<(), AllocError>
    ensures { OnOk result (sides_of out.new
        ≡ used T.kind (known_of s.now) (called_of called.now) ((block, entry.now) ∷ []) (sides_of out.old)) }
{
    match find(entries_at(s.free, block as usize), called.function) {
        Some(given) => take_multiples(alloc, s, called, given, entry, out),
        None => take(alloc, s, called, 0, &[], &[], out),
    }
}

// All multiples are taken.
fn use_multiples<T: Kind>(
    alloc: Global,
    s: &Known<'_, T>,
    called: &Called,
    told: &[(u32, T)],
    out: &mut Sides<T>,
) -> Result<(), AllocError>
    ensures { OnOk result (sides_of out.new ≡ used T.kind (known_of s.now) (called_of called.now) told.now (sides_of out.old)) }
{
    for (block, entry) in told {
        use_multiple(alloc, s, called, *block, entry, out)?;
    }
    Ok(())
}

/// What all signatures of a call bring, with these multiples.
pub fn sums<T: Kind>(
    alloc: Global,
    s: &Known<'_, T>,
    called: &Called,
    mode: Mode,
    told: &[(u32, T)],
) -> Result<Sides<T>, AllocError>
    ensures { IfOk result (λ out. sides_of out ≡ sums T.kind (known_of s.now) (mode_of mode) (called_of called.now) told.now) }
{
    let mut out = once(alloc, s, called, mode)?;
    use_multiples(alloc, s, called, told, &mut out)?;
    if mode == Mode::With(Meter::Work) {
        lower_first(&mut out.args, 1, s.scale);
    }
    Ok(out)
}

/// No signature pays, although the mode asks for one.
pub fn is_unpaid<T>(s: &Known<'_, T>, called: &Called, mode: Mode) -> bool
    ensures { result ≡ is_unpaid (known_of s.now) (mode_of mode) (called_of called.now) }
{
    match mode {
        Mode::With(meter) => called.own.is_none() && cost(s, meter, called.function).is_none(),
        Mode::Own | Mode::Past => false,
    }
}
