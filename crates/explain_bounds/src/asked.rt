// What is asked of bounds.
use cost_free::Meter;
use explain_at::Given;

/// What is told behind a bound.
#[derive(Clone, Copy, Debug)]
pub enum Asked<'a> {
    /// Nothing.
    Nothing,
    /// Its value where the parameters have the sizes that are given.
    At {
        given: &'a [Given<'a>],
    },
    /// In the lines of a meter, up to which number in place of the one size that is not given it is at most `most`.
    Within {
        meter: Meter,
        most: u128,
        given: &'a [Given<'a>],
    },
}
