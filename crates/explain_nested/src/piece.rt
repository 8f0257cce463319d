// What stands in a reading.
ghost use Rattle.std.specs.Prelude.{◌≡◌, ◌++◌, ◌∷◌, [], IfOk, OnOk};
ghost use Rattle.explain_nested.specs.Reading.{Named, First, Second, Choices, Elements, Held};
ghost use Rattle.explain_nested.specs.Read.{place_of, pieces_of};

use std::alloc::{AllocError, Global};

/// A value by its number, or a part of one: parameters come first, and behind them elements in the
/// order in which they are named.
#[derive(Debug, Drop)]
pub enum Place {
    Named(usize),
    First(Box<Place>),
    Second(Box<Place>),
}

/// A factor or a sum in a reading.
#[derive(Debug, Drop)]
pub enum Piece {
    /// The number of ways to choose so many elements of a list or a tree.
    Choices(Place, usize),
    /// The sum of what stands behind, over so many elements in their order, which get the next numbers.
    Elements(Place, usize),
    /// What stands behind at what an option holds, which gets the next number, or 0 where it holds nothing.
    Held(Place),
}

impl Place {
    /// A copy.
    pub fn copy(&self, alloc: Global) -> Result<Place, AllocError>
        ensures { IfOk result (λ copy. place_of copy ≡ place_of self.now) }
    {
        match self {
            Place::Named(number) => Ok(Place::Named(*number)),
            Place::First(whole) => Ok(Place::First(Box::new(alloc, whole.copy(alloc)?)?)),
            Place::Second(whole) => Ok(Place::Second(Box::new(alloc, whole.copy(alloc)?)?)),
        }
    }
    /// The value of this number.
    pub fn named(number: usize) -> Place
        ensures { place_of result ≡ Named number }
    {
        Place::Named(number)
    }

    /// The first part of the pair there.
    pub fn first(&self, alloc: Global) -> Result<Place, AllocError>
        ensures { IfOk result (λ part. place_of part ≡ First (place_of self.now)) }
    {
        Ok(Place::First(Box::new(alloc, self.copy(alloc)?)?))
    }

    /// The second part.
    pub fn second(&self, alloc: Global) -> Result<Place, AllocError>
        ensures { IfOk result (λ part. place_of part ≡ Second (place_of self.now)) }
    {
        Ok(Place::Second(Box::new(alloc, self.copy(alloc)?)?))
    }
}

/// Appends the factor of the choices of so many elements.
pub fn push_choices(
    alloc: Global,
    pieces: &mut Vec<Piece>,
    place: &Place,
    count: usize,
) -> Result<(), AllocError>
    ensures { OnOk result (pieces_of pieces.new.items ≡ pieces_of pieces.old.items ++ Choices (place_of place.now) count ∷ []) }
{
    pieces.push(Piece::Choices(place.copy(alloc)?, count))?;
    Ok(())
}

/// Appends the sum over so many elements.
pub fn push_elements(
    alloc: Global,
    pieces: &mut Vec<Piece>,
    place: &Place,
    count: usize,
) -> Result<(), AllocError>
    ensures { OnOk result (pieces_of pieces.new.items ≡ pieces_of pieces.old.items ++ Elements (place_of place.now) count ∷ []) }
{
    pieces.push(Piece::Elements(place.copy(alloc)?, count))?;
    Ok(())
}

/// Appends the sum over what an option holds.
pub fn push_held(alloc: Global, pieces: &mut Vec<Piece>, place: &Place) -> Result<(), AllocError>
    ensures { OnOk result (pieces_of pieces.new.items ≡ pieces_of pieces.old.items ++ Held (place_of place.now) ∷ []) }
{
    pieces.push(Piece::Held(place.copy(alloc)?))?;
    Ok(())
}
