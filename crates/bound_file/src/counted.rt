// Terms with their numbers.
ghost use Rattle.std.specs.Prelude.{◌<ℤ◌, pos};

/// A term with its numbers, which are positive, and the text of its tuple, which is empty for the zero
/// tuple.
#[derive(Clone, Copy, Debug)]
pub struct Counted<'a> {
    pub tuple: &'a str,
    pub numerator: i128,
    pub denominator: i128,
    ghost some: { pos 0 <ℤ numerator },
    ghost over_some: { pos 0 <ℤ denominator },
}
