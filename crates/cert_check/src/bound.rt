// Bounds that a certificate has.
ghost use Rattle.std.specs.Prelude.{◌≡◌, ◌≤◌, ◌<ℤ◌, pos, unsigned_abs, cond, slice_get, length, map, IfOk, IfSome, None};
ghost use Rattle.std.specs.Option.{option_map};
ghost use Rattle.base_poly.specs.Indices.{index_list};
ghost use Rattle.base_poly.specs.Poly.{IsPoly};
ghost use Rattle.base_poly.specs.Read.{context_of};
ghost use Rattle.normal_spec.specs.Norm as n;
ghost use Rattle.normal_spec.specs.Context.{types};
ghost use Rattle.normal_spec.specs.Read.{parameters_of};
ghost use Rattle.cost_free.specs.Blocked.{is_for_meter};
ghost use Rattle.cost_free.specs.Read.{kind_of};
ghost use Rattle.annot_types.specs.Certificate.{Annotates, sigs_of};
ghost use Rattle.annot_types.specs.Signature.{sig_in, cost_sig};
ghost use Rattle.annot_types.specs.Held as h;
ghost use Rattle.annot_types.specs.Read as a;
ghost use Rattle.rules_spec.specs.Stand.{Within};
ghost use Rattle.rules_plan.specs.Read.{program_in};
ghost use Rattle.cert_check.specs.Bound.{over, told, told_of};
ghost use Rattle.cert_check.specs.Laws.{IsFaultless};

use crate::at::members;
use crate::head::scale_of;
use crate::target::sig_of;
use annot_types::{Annot, Block, BlockBody, Certificate, Sig};
use base_poly::{IndexFault, Poly, Tuple, indices};
use cost_free::{Meter, TaskKind};
use raml_syntax::{FunId, Ty};
use share_normal::NormProgram;
use std::alloc::{AllocError, Global};

fn is_for_meter(meter: Meter, kind: TaskKind) -> bool
    ensures { result ≡ is_for_meter meter (kind_of kind) }
{
    match kind {
        TaskKind::Free { .. } => false,
        TaskKind::With(other) => meter == other,
    }
}

/// The signatures of a block; none where it is not solved.
pub fn sigs_of(body: &BlockBody) -> &[Sig]
    ensures { map a.sig_of result.now ≡ sigs_of (a.body_of body.now) }
{
    match body {
        BlockBody::Solved { sigs, .. } => sigs,
        BlockBody::Refuted { .. } | BlockBody::Calls { .. } => &[],
    }
}

// The signature that a block has for a function, where it is one of the meter.
fn sig_in<'c>(
    program: &NormProgram<'_>,
    meter: Meter,
    block: &'c Block,
    fun: FunId,
) -> Option<&'c Sig>
    ensures { option_map (λ s. a.sig_of s.now) result
        ≡ cond (is_for_meter meter (kind_of block.now.task.kind)) (sig_in (program_in program.now) (a.block_of block.now) fun.0) None }
{
    if is_for_meter(meter, block.task.kind) {
        let functions = members(program, block.task.group);
        sig_of(functions, sigs_of(&block.body), fun)
    } else {
        None
    }
}

// The signature with cost, of the first block of the meter that has one.
fn cost_sig<'c>(
    program: &NormProgram<'_>,
    meter: Meter,
    blocks: &'c [Block],
    fun: FunId,
) -> Option<&'c Sig>
    ensures { option_map (λ s. a.sig_of s.now) result ≡ cost_sig (program_in program.now) meter (a.blocks_of blocks.now) fun.0 }
{
    for block in blocks {
        if let Some(sig) = sig_in(program, meter, block, fun) {
            return Some(sig);
        }
    }
    None
}

/// The parameters of a function; none where there is no such function.
pub fn params_of<'p>(program: &'p NormProgram<'_>, fun: FunId) -> Option<&'p [(u32, Ty)]>
    ensures { option_map (λ ps. parameters_of ps.now) result
        ≡ option_map (λ (g : n.NormFun). g.params) (slice_get (program_in program.now).funs fun.0) }
{
    let _results = program.results();
    let functions = program.functions();
    if (fun.0 as usize) < functions.len() {
        Some(&functions.fun(fun).params)
    } else {
        None
    }
}

/// The types of the parameters.
pub fn types_of(alloc: Global, params: &[(u32, Ty)]) -> Result<Vec<Ty>, AllocError>
    ensures { IfOk result (λ made. context_of made.items ≡ types (parameters_of params.now)) }
{
    let mut made = Vec::with_capacity(alloc, params.len())?;
    for param in params {
        made.push(param.1.copy(alloc)?)?;
    }
    Ok(made)
}

// The tuples of the parameters' types, of which there are at most 2000.
fn tuples_of(alloc: Global, params: &[(u32, Ty)], degree: u8) -> Result<Vec<Tuple>, AllocError>
    requires { length (index_list (types (parameters_of params.now)) degree) ≤ 2000 }
    ensures { IfOk result (λ all. all.items ≡ index_list (types (parameters_of params.now)) degree) }
{
    let types = types_of(alloc, params)?;
    match indices(alloc, &types, degree, 2000) {
        Ok(all) => Ok(all),
        Err(IndexFault::TooMany) => unreachable!(),
        Err(IndexFault::NoMemory) => Err(AllocError),
    }
}

// Each entry with the tuple of its position.
fn terms_of(
    alloc: Global,
    tuples: &[Tuple],
    entries: &[(u32, i128)],
) -> Result<Vec<(Tuple, i128)>, AllocError>
    requires { Within (length tuples.now) entries.now }
    ensures { IfOk result (λ terms. terms.items ≡ over tuples.now entries.now) }
{
    let mut terms = Vec::with_capacity(alloc, entries.len())?;
    for &(position, number) in entries {
        let tuple = tuples[position as usize].copy(alloc)?;
        terms.push((tuple, number))?;
    }
    Ok(terms)
}

/// An annotation of the parameters over a scale. They have at most 2000 tuples of indices.
pub fn poly_of(
    alloc: Global,
    scale: i128,
    degree: u8,
    params: &[(u32, Ty)],
    annot: &Annot,
) -> Result<Poly, AllocError>
    requires positive { pos 0 <ℤ scale }
    requires low { degree ≤ 4 }
    requires few { length (index_list (types (parameters_of params.now)) degree) ≤ 2000 }
    requires within { Annotates (types (parameters_of params.now)) degree annot.now }
    ensures told { IfOk result
        (λ poly. told_of poly ≡ (unsigned_abs scale, h.terms_of (types (parameters_of params.now)) degree annot.now)) }
    ensures poly { IfOk result IsPoly }
{
    let tuples = tuples_of(alloc, params, degree)?;
    let terms = terms_of(alloc, &tuples, annot.entries())?;
    Ok(Poly { den: scale, terms })
}

/// The bound of a function on a meter, where the certificate has one.
pub fn bound_of(
    alloc: Global,
    program: &NormProgram<'_>,
    certificate: &Certificate,
    fun: FunId,
    meter: Meter,
) -> Result<Option<Poly>, AllocError>
    requires { IsFaultless (program_in program.now) (a.certificate_of certificate.now) }
    ensures told { IfOk result
        (λ found. option_map told_of found ≡ told (program_in program.now) (a.certificate_of certificate.now) fun.0 meter) }
    ensures poly { IfOk result (λ found. IfSome found IsPoly) }
{
    let Some(params) = params_of(program, fun) else {
        return Ok(None);
    };
    let Some(sig) = cost_sig(program, meter, &certificate.blocks, fun) else {
        return Ok(None);
    };
    let scale = scale_of(certificate, meter);
    match poly_of(alloc, scale, certificate.degree, params, &sig.args) {
        Ok(poly) => Ok(Some(poly)),
        Err(error) => Err(error),
    }
}
