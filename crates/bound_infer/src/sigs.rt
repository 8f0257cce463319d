// Signatures and hints, multiplied.
ghost use Rattle.std.specs.Prelude.{◌≡◌, ◌<◌, map, IfOk, Vec};
ghost use Rattle.std.specs.Global.{Global as TheGlobal};
ghost use Rattle.std.specs.List.{All};
ghost use Rattle.annot_types.specs.Holds.{times, times_sig, times_hint};
ghost use Rattle.annot_types.specs.Read.{sig_of, hint_of, hints_of};
ghost use Rattle.annot_types.specs.declared.block.Hint.{Hint as TheHint};
ghost use Rattle.infer_spec.specs.Places.{EntriesFit, SigFits, HintFits};
ghost use Rattle.bound_infer.specs.Fitting.{HintsFit};

use crate::factor::Factor;
use crate::fault::TimesFault;
use crate::times::{times_annot, times_entries};
use annot_types::{Annot, Hint, Sig};
use std::alloc::Global;

fn times_annots(alloc: Global, annots: &[Annot], factor: &Factor) -> Result<Vec<Annot>, TimesFault>
    requires { 0 < factor.now }
    ensures made { IfOk result (λ made. made.items ≡ map (times factor.now) annots.now) }
    ensures fit { IfOk result (λ _. All (EntriesFit factor.now) annots.now) }
    ensures leaves { result ≡ Err TimesFault.Leaves → All (EntriesFit factor.now) annots.now → ⊥ }
{
    let mut made = Vec::with_capacity(alloc, annots.len())?;
    for index in 0..annots.len() {
        match times_annot(alloc, &annots[index], factor) {
            Ok(annot) => made.push(annot)?,
            Err(fault) => return Err(fault),
        }
    }
    Ok(made)
}

fn times_sig(alloc: Global, sig: &Sig, factor: &Factor) -> Result<Sig, TimesFault>
    requires { 0 < factor.now }
    ensures made { IfOk result (λ made. sig_of made ≡ times_sig factor.now (sig_of sig.now)) }
    ensures fit { IfOk result (λ _. SigFits factor.now (sig_of sig.now)) }
    ensures leaves { result ≡ Err TimesFault.Leaves → SigFits factor.now (sig_of sig.now) → ⊥ }
{
    let args = match times_annot(alloc, &sig.args, factor) {
        Ok(args) => args,
        Err(fault) => return Err(fault),
    };
    match times_annot(alloc, &sig.result, factor) {
        Ok(of_result) => Ok(Sig {
            args,
            result: of_result,
        }),
        Err(fault) => Err(fault),
    }
}

/// Signatures with their numbers multiplied.
pub(crate) fn times_sigs(
    alloc: Global,
    sigs: &[Sig],
    factor: &Factor,
) -> Result<Vec<Sig>, TimesFault>
    requires { 0 < factor.now }
    ensures made { IfOk result (λ made. map sig_of made.items ≡ map (λ s. times_sig factor.now (sig_of s)) sigs.now) }
    ensures fit { IfOk result (λ _. All (λ s. SigFits factor.now (sig_of s)) sigs.now) }
    ensures leaves { result ≡ Err TimesFault.Leaves → All (λ s. SigFits factor.now (sig_of s)) sigs.now → ⊥ }
{
    let mut made = Vec::with_capacity(alloc, sigs.len())?;
    for index in 0..sigs.len() {
        match times_sig(alloc, &sigs[index], factor) {
            Ok(sig) => made.push(sig)?,
            Err(fault) => return Err(fault),
        }
    }
    Ok(made)
}

fn times_hint(alloc: Global, hint: &Hint, factor: &Factor) -> Result<Hint, TimesFault>
    requires { 0 < factor.now }
    ensures made { IfOk result (λ made. hint_of made ≡ times_hint factor.now (hint_of hint.now)) }
    ensures fit { IfOk result (λ _. HintFits factor.now (hint_of hint.now)) }
    ensures leaves { result ≡ Err TimesFault.Leaves → HintFits factor.now (hint_of hint.now) → ⊥ }
{
    match hint {
        Hint::Let(results) => match times_annots(alloc, results, factor) {
            Ok(results) => Ok(Hint::Let(results)),
            Err(fault) => Err(fault),
        },
        Hint::Share(copies) => match times_annot(alloc, copies, factor) {
            Ok(copies) => Ok(Hint::Share(copies)),
            Err(fault) => Err(fault),
        },
        Hint::Call(multiples) => match times_entries(alloc, multiples, factor) {
            Ok(multiples) => Ok(Hint::Call(multiples)),
            Err(fault) => Err(fault),
        },
    }
}

fn times_hints(alloc: Global, hints: &[Hint], factor: &Factor) -> Result<Vec<Hint>, TimesFault>
    requires { 0 < factor.now }
    ensures made { IfOk result (λ made. hints_of made ≡ map (λ h. times_hint factor.now (hint_of h)) hints.now) }
    ensures fit { IfOk result (λ _. HintsFit factor.now hints.now) }
    ensures leaves { result ≡ Err TimesFault.Leaves → HintsFit factor.now hints.now → ⊥ }
{
    let mut made = Vec::with_capacity(alloc, hints.len())?;
    for index in 0..hints.len() {
        match times_hint(alloc, &hints[index], factor) {
            Ok(hint) => made.push(hint)?,
            Err(fault) => return Err(fault),
        }
    }
    Ok(made)
}

/// Lists of hints with their numbers multiplied.
pub(crate) fn times_all_hints(
    alloc: Global,
    lists: &[Vec<Hint>],
    factor: &Factor,
) -> Result<Vec<Vec<Hint>>, TimesFault>
    requires { 0 < factor.now }
    ensures made { IfOk result
        (λ made. map hints_of made.items ≡ map
        (λ (hs : Vec TheHint TheGlobal). map (λ h. times_hint factor.now (hint_of h)) hs.items) lists.now) }
    ensures fit { IfOk result (λ _. All (λ (hs : Vec TheHint TheGlobal). HintsFit factor.now hs.items) lists.now) }
    ensures leaves { result ≡ Err TimesFault.Leaves → All (λ (hs : Vec TheHint TheGlobal). HintsFit factor.now hs.items) lists.now → ⊥ }
{
    let mut made = Vec::with_capacity(alloc, lists.len())?;
    for index in 0..lists.len() {
        match times_hints(alloc, &lists[index], factor) {
            Ok(hints) => made.push(hints)?,
            Err(fault) => return Err(fault),
        }
    }
    Ok(made)
}
