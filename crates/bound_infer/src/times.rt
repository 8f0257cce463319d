// Numbers of a block, multiplied.
ghost use Rattle.std.specs.Prelude.{◌≡◌, ◌<◌, IfOk};
ghost use Rattle.annot_types.specs.Holds.{times};
ghost use Rattle.infer_spec.specs.Places.{EntriesFit};

use crate::factor::Factor;
use crate::fault::TimesFault;
use annot_types::Annot;
use std::alloc::Global;

pub(crate) fn times_entries(
    alloc: Global,
    entries: &[(u32, i128)],
    factor: &Factor,
) -> Result<Vec<(u32, i128)>, TimesFault>
    ensures made { IfOk result (λ made. made.items ≡ times factor.now entries.now) }
    ensures fit { IfOk result (λ _. EntriesFit factor.now entries.now) }
    ensures leaves { result ≡ Err TimesFault.Leaves → EntriesFit factor.now entries.now → ⊥ }
{
    let mut made = Vec::with_capacity(alloc, entries.len())?;
    for index in 0..entries.len() {
        let (place, number) = entries[index];
        match factor.times(number) {
            Some(product) => made.push((place, product))?,
            None => return Err(TimesFault::Leaves),
        }
    }
    Ok(made)
}

/// An annotation with its numbers multiplied.
pub(crate) fn times_annot(
    alloc: Global,
    annot: &Annot,
    factor: &Factor,
) -> Result<Annot, TimesFault>
    requires { 0 < factor.now }
    ensures made { IfOk result (λ made. made ≡ times factor.now annot.now) }
    ensures fit { IfOk result (λ _. EntriesFit factor.now annot.now) }
    ensures leaves { result ≡ Err TimesFault.Leaves → EntriesFit factor.now annot.now → ⊥ }
{
    match times_entries(alloc, annot.entries(), factor) {
        Ok(entries) => match Annot::new(entries) {
            Some(annot) => Ok(annot),
            None => Err(TimesFault::Leaves),
        },
        Err(fault) => Err(fault),
    }
}
