// Entries from the positions of targets.
ghost use Rattle.std.specs.Prelude.{◌≡◌, map, IfOk};
ghost use Rattle.std.specs.List.{range_with_len};
ghost use Rattle.rules_plan.specs.Entries.{entry, placed_at, picked_at, restricted};

use index_shift::Entry;
use std::alloc::{AllocError, Global};

// The number in 32 bits. Past them memory is wanting.
fn position(number: usize) -> Result<u32, AllocError>
    ensures { IfOk result (λ position. position ≡ number) }
{
    match u32::try_from(number) {
        Ok(position) => Ok(position),
        Err(_) => Err(AllocError),
    }
}

fn entry(from: usize, to: usize) -> Result<Entry, AllocError>
    ensures { IfOk result (λ made. made ≡ entry from to) }
{
    Ok(Entry {
        from: position(from)?,
        to: position(to)?,
        times: 1,
    })
}

/// From each position an entry to its target, where that is below the limit.
pub fn placed(alloc: Global, targets: &[usize], limit: usize) -> Result<Vec<Entry>, AllocError>
    ensures { IfOk result (λ found. found.items ≡ placed_at limit 0 targets.now) }
{
    let mut found = Vec::new(alloc);
    for (from, to) in targets.iter().enumerate() {
        if *to < limit {
            found.push(entry(from, *to)?)?;
        }
    }
    Ok(found)
}

/// From each position to itself.
pub fn identity(alloc: Global, size: usize) -> Result<Vec<Entry>, AllocError>
    ensures { IfOk result (λ found. found.items ≡ map (λ k. entry k k) (range_with_len 0 size)) }
{
    let mut found = Vec::with_capacity(alloc, size)?;
    for k in 0..size {
        found.push(entry(k, k)?)?;
    }
    Ok(found)
}

/// Of those alone whose first number is this one, an entry to the second.
pub fn picked(
    alloc: Global,
    halves: &[(usize, usize)],
    first: usize,
    limit: usize,
) -> Result<Vec<Entry>, AllocError>
    ensures { IfOk result (λ found. found.items ≡ picked_at first limit 0 halves.now) }
{
    let mut found = Vec::new(alloc);
    for (from, half) in halves.iter().enumerate() {
        if half.0 == first && half.1 < limit {
            found.push(entry(from, half.1)?)?;
        }
    }
    Ok(found)
}

/// The entries from and to positions below the limits.
pub fn restricted(
    alloc: Global,
    entries: &[Entry],
    froms: usize,
    tos: usize,
) -> Result<Vec<Entry>, AllocError>
    ensures { IfOk result (λ found. found.items ≡ restricted froms tos entries.now) }
{
    let mut found = Vec::new(alloc);
    for entry in entries {
        if (entry.from as usize) < froms && (entry.to as usize) < tos {
            found.push(*entry)?;
        }
    }
    Ok(found)
}
