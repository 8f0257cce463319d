// Sizes of which some are open.
ghost use Rattle.std.specs.Prelude.{◌≡◌, IfOk};
ghost use Rattle.explain_sizes.specs.Open.{filled, all_filled};
ghost use Rattle.explain_sizes.specs.Read.{sizes_of, all_sizes, open_of, all_open};

use crate::size::Size;
use std::alloc::{AllocError, Global};

/// The sizes that a value has by its type, where how many elements there are may be left open.
#[derive(Debug, Drop)]
pub enum OpenSize {
    /// Those of a number or of a truth value, which has none.
    Unit,
    /// Those of the parts of a pair.
    Pair(Box<OpenSize>, Box<OpenSize>),
    /// How many elements a list or a tree has, where that is told, and the sizes of each.
    List(Option<u64>, Box<OpenSize>),
    /// Those of what an option holds.
    Opt(Box<OpenSize>),
}

impl OpenSize {
    /// The sizes with this number at each open place.
    pub fn filled(&self, alloc: Global, number: u64) -> Result<Size, AllocError>
        ensures { IfOk result (λ size. sizes_of size ≡ filled number (open_of self.now)) }
    {
        match self {
            OpenSize::Unit => Ok(Size::Unit),
            OpenSize::Pair(first, second) => Ok(Size::Pair(
                Box::new(alloc, first.filled(alloc, number)?)?,
                Box::new(alloc, second.filled(alloc, number)?)?,
            )),
            OpenSize::List(count, each) => Ok(Size::List(
                count.unwrap_or(number),
                Box::new(alloc, each.filled(alloc, number)?)?,
            )),
            OpenSize::Opt(content) => Ok(Size::Opt(Box::new(
                alloc,
                content.filled(alloc, number)?,
            )?)),
        }
    }
}

/// The sizes, one by one, with this number at each open place.
pub fn fill_all(alloc: Global, sizes: &[OpenSize], number: u64) -> Result<Vec<Size>, AllocError>
    ensures { IfOk result (λ filled. all_sizes filled.items ≡ all_filled number (all_open sizes.now)) }
{
    let mut filled = Vec::with_capacity(alloc, sizes.len())?;
    for size in sizes {
        filled.push(size.filled(alloc, number)?)?;
    }
    Ok(filled)
}
