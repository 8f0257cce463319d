// Vectors as entries.
ghost use Rattle.std.specs.Prelude.{◌≡◌, ◌<◌, ◌^◌, ◌++◌, ℕ, pos, List, map, length, IfOk, OnOk};
ghost use Rattle.infer_spec.specs.Listed.{listed};
ghost use Rattle.bound_infer.specs.Entry.{entry};

use std::alloc::{AllocError, Global};

/// One number more, unless it is 0.
fn add(entries: &mut Vec<(u32, i128)>, place: u32, number: i128) -> Result<(), AllocError>
    ensures { OnOk result (entries.new.items ≡ entries.old.items ++ entry place number) }
{
    if number != 0 {
        entries.push((place, number))?;
    }
    Ok(())
}

/// The numbers of a vector that are not 0, by their places.
pub fn listed(alloc: Global, vector: &[i128]) -> Result<Vec<(u32, i128)>, AllocError>
    requires fits { length vector.now < 2 ^ 32 }
    ensures { IfOk result (λ entries. (ys : List ℕ) → vector.now ≡ map pos ys → entries.items ≡ listed 0 ys) }
{
    let mut entries = Vec::new(alloc);
    for place in 0..vector.len() {
        add(&mut entries, place as u32, vector[place])?;
    }
    Ok(entries)
}
