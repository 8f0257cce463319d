// What may be spent of a meter.
ghost use Rattle.std.specs.Prelude.{◌≡◌};
ghost use Rattle.explain_words.specs.Spelled.{cut_at, lent_parts, meter_named, within_in};

use crate::number::number_in;

/// What a bound counts.
#[derive(Clone, Copy, Debug, PartialEq, Eq)]
pub enum Meter {
    Ticks,
    Cells,
    Work,
}

/// How much of a meter may be spent.
#[derive(Clone, Copy, Debug, PartialEq, Eq)]
pub struct Within {
    pub meter: Meter,
    /// At most 2^127.
    pub most: u128,
}

/// The most that may be asked for.
const MOST: u128 = 1 << 127;

impl Meter {
    /// The meter of this name.
    pub fn named(name: &str) -> Option<Meter>
        ensures { result ≡ meter_named name.now }
    {
        match name {
            "ticks" => Some(Meter::Ticks),
            "cells" => Some(Meter::Cells),
            "work" => Some(Meter::Work),
            _ => None,
        }
    }
}

impl Within {
    /// What a word such as `ticks=1000` allows: a meter, `=`, and a whole number of at most 39 digits.
    pub fn of(word: &str) -> Option<Within>
        ensures { result ≡ within_in word.now }
    {
        let (name, digits) = parts(word)?;
        let meter = Meter::named(name)?;
        let most = number_in(39, 0, MOST, digits)?;
        Some(Within { meter, most })
    }
}

// What stands before the first `=` of a word, and behind it.
fn parts<'a>(word: &'a str) -> Option<(&'a str, &'a str)>
    ensures { lent_parts result ≡ cut_at 61 word.now }
{
    word.split_once('=')
}
