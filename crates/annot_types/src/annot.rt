// Annotations.
ghost use Rattle.std.specs.Prelude.{◌≡◌, ◌↔◌, IsTrue, IsSome, IfSome};
ghost use Rattle.annot_types.specs.Certificate.{Entries, Rise, number_at};

use std::marker::Model;

/// The numbers of an annotation that are not 0, by ascending position. Contracts see it as the list of
/// its entries.
#[derive(Debug, Drop)]
pub struct Annot {
    entries: Vec<(u32, i128)>,
}

impl Model for Annot {
    ghost use Rattle.annot_types.specs.Certificate.{Entries, Rise};

    ghost Value = { Entries };

    ghost view = { λ annot. annot.entries.items };

    ghost invariant = { λ annot. Rise annot.entries.items };
}

impl Annot {
    /// The annotation with these entries; none unless positions ascend and all numbers are positive.
    pub fn new(entries: Vec<(u32, i128)>) -> Option<Annot>
        ensures exactly { IsSome result ↔ Rise entries.items }
        ensures all { IfSome result (λ annot. annot ≡ entries.items) }
    {
        if rise(&entries) {
            Some(Annot { entries })
        } else {
            None
        }
    }

    /// The number at a position, 0 where there is no entry.
    pub fn get(&self, position: u32) -> i128
        ensures { result ≡ number_at position self.now }
    {
        for &(place, number) in &self.entries {
            if place == position {
                return number;
            }
        }
        0
    }

    /// The entries, positions ascending.
    pub fn entries(&self) -> &[(u32, i128)]
        ensures all { result.now ≡ self.now }
        ensures rise { Rise self.now }
    {
        &self.entries
    }
}

/// Whether positions ascend and all numbers are positive.
pub fn rise(entries: &[(u32, i128)]) -> bool
    ensures { IsTrue result ↔ Rise entries.now }
{
    let mut least: u64 = 0;
    for &(place, number) in entries {
        if (place as u64) < least || number <= 0 {
            return false;
        }
        least = place as u64 + 1;
    }
    true
}
