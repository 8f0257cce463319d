// The signatures of a block, as numbers of all positions.
ghost use Rattle.std.specs.Prelude.{◌≡◌, map, replicate, slice_set, unsigned_abs, IfOk};
ghost use Rattle.call_groups.specs.Read.{ids_of};
ghost use Rattle.annot_types.specs.Certificate.{annotation};
ghost use Rattle.annot_types.specs.Read.{sig_of};
ghost use Rattle.rules_spec.specs.Found.{listed};
ghost use Rattle.rules_walk.specs.Read.{signature_of};
ghost use Rattle.rules_walk.specs.Signed.{dense, signatures, all_signed};

use crate::known::{Signature, Signed};
use annot_types::{Annot, Sig};
use raml_syntax::FunId;
use std::alloc::{AllocError, Global};

// A number at its position, where there is such a position.
fn put(numbers: &mut Vec<u128>, entry: (u32, i128))
    ensures { numbers.new.items ≡ slice_set numbers.old.items entry.0 (unsigned_abs entry.1) }
{
    let place = entry.0 as usize;
    if place < numbers.len() {
        numbers[place] = entry.1.unsigned_abs();
    }
}

// So many zeros.
fn zeros(alloc: Global, size: usize) -> Result<Vec<u128>, AllocError>
    ensures { IfOk result (λ zeros. zeros.items ≡ replicate size 0) }
{
    let mut zeros = Vec::with_capacity(alloc, size)?;
    for _ in 0..size {
        zeros.push(0)?;
    }
    Ok(zeros)
}

/// The numbers of an annotation at its first `size` positions.
pub fn numbers(alloc: Global, annot: &Annot, size: usize) -> Result<Vec<u128>, AllocError>
    ensures { IfOk result (λ numbers. numbers.items ≡ listed size (annotation annot.now)) }
{
    let entries = annot.entries();
    let mut numbers = zeros(alloc, size)?;
    let mut left = entries.len();
    while left > 0 {
        left -= 1;
        put(&mut numbers, entries[left]);
    }
    Ok(numbers)
}

// A signature, at its budget, of a function with so many positions.
fn signature(
    alloc: Global,
    budget: u8,
    sizes: (usize, usize),
    sig: &Sig,
) -> Result<Signature, AllocError>
    ensures { IfOk result (λ made. signature_of made ≡ dense budget sizes (sig_of sig.now)) }
{
    let args = numbers(alloc, &sig.args, sizes.0)?;
    let result = numbers(alloc, &sig.result, sizes.1)?;
    Ok(Signature {
        budget: budget as usize,
        args,
        result,
    })
}

/// The functions of a group, with their signatures.
pub fn signatures(
    alloc: Global,
    budget: u8,
    members: &[FunId],
    sizes: &[(usize, usize)],
    sigs: &[Sig],
) -> Result<Vec<Signed>, AllocError>
    ensures { IfOk result (λ made. all_signed made.items ≡ signatures budget (ids_of members.now) sizes.now (map sig_of sigs.now)) }
{
    let mut made = Vec::new(alloc);
    let mut sizes = sizes;
    let mut sigs = sigs;
    for fun in members {
        let [size, more_sizes @ ..] = sizes else {
            return Ok(made);
        };
        let [sig, more_sigs @ ..] = sigs else {
            return Ok(made);
        };
        made.push(Signed {
            function: fun.0 as usize,
            signature: signature(alloc, budget, *size, sig)?,
        })?;
        sizes = more_sizes;
        sigs = more_sigs;
    }
    Ok(made)
}
