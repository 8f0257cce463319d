// What the making of values goes by: random numbers, and how many more cells may be made.
use rand_core::utils::NextWord;
use rand_pcg::Pcg32;

/// In which order the elements of made lists stand.
#[derive(Clone, Copy, PartialEq, Eq, Debug)]
pub enum Shape {
    Ascending,
    Descending,
    Random,
}

/// How many cells made arguments have at most, but for the pairs of one more element.
const MOST_CELLS: u32 = 20000;

/// The most elements of an inner list or tree.
const MOST_INNER: u32 = 8;

/// How many elements the lists and trees of other parameters have, where those of one alone have as many as are asked for.
const OTHERS: u32 = 8;

/// A maker of values.
#[derive(Drop)]
pub struct Maker {
    random: Pcg32,
    shape: Shape,
    /// How many elements the outer lists and trees have.
    size: u32,
    /// The place of the parameter that has this size, where it is one alone.
    along: Option<usize>,
    /// How many more cells may be made.
    spare: u32,
}

impl Maker {
    /// A maker of values with so many elements at the outside, in the parameter at the place `along` alone where there is one.
    /// Its random numbers begin at the seed.
    pub fn new(along: Option<usize>, size: u32, shape: Shape, seed: u64) -> Maker {
        Maker {
            random: Pcg32::new(seed, 54),
            shape,
            size: size.min(MOST_CELLS),
            along,
            spare: MOST_CELLS,
        }
    }

    /// How many elements outer lists and trees have.
    pub fn size(&self) -> u32 {
        self.size
    }

    /// How many elements those of the parameter at the place have.
    pub fn size_at(&self, place: usize) -> u32 {
        match self.along {
            Some(along) if along != place => OTHERS,
            _ => self.size,
        }
    }

    /// A random number from 0 to `most`.
    pub fn up_to(&mut self, most: u32) -> u32 {
        self.random.next_word() % most.saturating_add(1)
    }

    /// Takes one of the cells that may still be made, and tells whether there was one.
    pub fn takes_cell(&mut self) -> bool {
        let is_left = self.spare > 0;
        self.spare = self.spare.saturating_sub(1);
        is_left
    }

    /// The number in an element with so many before it: they ascend by two, descend by two, or are random.
    pub fn number(&mut self, before: u32) -> u32 {
        let most = self.size.saturating_mul(2);
        match self.shape {
            Shape::Ascending => before.saturating_mul(2).min(most),
            Shape::Descending => most.saturating_sub(before.saturating_mul(2)),
            Shape::Random => self.up_to(most),
        }
    }
}

/// How many elements the lists and trees inside of one with so many have.
pub fn inner_size(size: u32) -> u32 {
    (size - size / 2).min(MOST_INNER)
}
