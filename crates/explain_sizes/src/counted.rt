// What indices count at sizes.
ghost use Rattle.std.specs.Prelude.{◌≡◌, ◌≤◌, ◌<◌, ◌*◌, ◌^◌, ℕ};
ghost use Rattle.base_poly.specs.Plain.{many, deg, degrees};
ghost use Rattle.base_poly.specs.Read.{index_of, plains_of};
ghost use Rattle.explain_sizes.specs.Counts.{counts, each_counts, tuple_counts};
ghost use Rattle.explain_sizes.specs.Read.{sizes_of, all_sizes};
ghost use Rattle.explain_sizes.specs.Shares.{IsProper, Holds};

use crate::binomial::choices;
use crate::share::{nothing, times};
use crate::share_type::Share;
use crate::size::Size;
use base_poly::Index;

/// A number over the denominator times what the indices of a tuple count, each at its sizes.
pub fn tuple_counted(
    den: u128,
    start: Option<Share>,
    indices: &[Index],
    sizes: &[Size],
) -> Option<Share>
    requires positive { 0 < den }
    requires den { den ≤ 2 ^ 127 }
    requires start { IsProper den start }
    requires low { degrees (plains_of indices.now) ≤ 4 }
    ensures proper { IsProper den result }
    ensures holds { (n : ℕ) → Holds den n start → Holds den (n * tuple_counts (plains_of indices.now) (all_sizes sizes.now)) result }
{
    match indices {
        [] => start,
        [index, rest @ ..] => match sizes {
            [] => nothing(),
            [size, others @ ..] => {
                tuple_counted(den, counted(den, start, index, size), rest, others)
            }
        },
    }
}

/// A number over the denominator times what the index counts at the sizes.
#[cycle(counted)]
fn counted(den: u128, start: Option<Share>, index: &Index, size: &Size) -> Option<Share>
    requires positive { 0 < den }
    requires den { den ≤ 2 ^ 127 }
    requires start { IsProper den start }
    requires low { deg (index_of index.now) ≤ 4 }
    ensures proper { IsProper den result }
    ensures holds { (n : ℕ) → Holds den n start → Holds den (n * counts (index_of index.now) (sizes_of size.now)) result }
{
    match index {
        Index::Unit => start,
        Index::Pair(first, second) => match size {
            Size::Pair(left, right) => {
                counted(den, counted(den, start, first, left), second, right)
            }
            Size::Unit | Size::List(..) | Size::Opt(_) => nothing(),
        },
        Index::List(entries) => listed(den, start, entries, size),
        Index::Opt(held) => match held {
            None => start,
            Some(entry) => match size {
                Size::Opt(content) => counted(den, start, entry, content),
                Size::Unit | Size::Pair(..) | Size::List(..) => nothing(),
            },
        },
    }
}

// The same for the list index with these entries.
#[cycle(counted)]
fn listed(den: u128, start: Option<Share>, entries: &[Index], size: &Size) -> Option<Share>
    requires positive { 0 < den }
    requires den { den ≤ 2 ^ 127 }
    requires start { IsProper den start }
    requires low { deg (many (plains_of entries.now)) ≤ 4 }
    ensures proper { IsProper den result }
    ensures holds { (n : ℕ) → Holds den n start → Holds den (n * counts (many (plains_of entries.now)) (sizes_of size.now)) result }
{
    if entries.is_empty() {
        return start;
    }
    match size {
        Size::List(count, each) => {
            let (some, others) = choices(*count, entries.len());
            let chosen = times(den, times(den, start, some), others);
            each_counted(den, chosen, entries, each)
        }
        Size::Unit | Size::Pair(..) | Size::Opt(_) => nothing(),
    }
}

// The number times what each of the entries counts at an element's sizes.
#[cycle(counted)]
fn each_counted(den: u128, start: Option<Share>, entries: &[Index], each: &Size) -> Option<Share>
    requires positive { 0 < den }
    requires den { den ≤ 2 ^ 127 }
    requires start { IsProper den start }
    requires low { deg (many (plains_of entries.now)) ≤ 4 }
    ensures proper { IsProper den result }
    ensures holds { (n : ℕ) → Holds den n start → Holds den (n * each_counts (many (plains_of entries.now)) (sizes_of each.now)) result }
{
    let mut share = start;
    for entry in entries {
        share = counted(den, share, entry, each);
    }
    share
}
