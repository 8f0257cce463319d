// Degrees of indices.
ghost use Rattle.std.specs.Prelude.{◌≡◌};
ghost use Rattle.base_poly.specs.Plain.{many, deg, capped};
ghost use Rattle.base_poly.specs.Read.{index_of, plains_of};

use base_poly::Index;

/// The degree, or 2^32 - 1 where it is greater.
#[cycle(degree)]
pub fn capped_degree(index: &Index) -> u32
    ensures { result ≡ capped (deg (index_of index.now)) }
{
    match index {
        Index::Unit => 0,
        Index::Pair(first, second) => capped_degree(first).saturating_add(capped_degree(second)),
        Index::List(entries) => degree_of_entries(entries),
        Index::Opt(None) => 0,
        Index::Opt(Some(entry)) => capped_degree(entry).saturating_add(1),
    }
}

#[cycle(degree)]
fn degree_of_entries(entries: &[Index]) -> u32
    ensures { result ≡ capped (deg (many (plains_of entries.now))) }
{
    let mut sum: u32 = 0;
    for entry in entries {
        sum = sum.saturating_add(1).saturating_add(capped_degree(entry));
    }
    sum
}
