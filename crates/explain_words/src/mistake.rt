// What is wrong with words that fit a command.
ghost use Rattle.explain_words.specs.Asking.{IsRefusal};

use crate::request::WordsFault;
use std::alloc::{AllocError, Global};

/// What is wrong with words that fit a command.
#[derive(Clone, Copy, Debug, PartialEq, Eq)]
pub enum Mistake {
    /// There is no command.
    NoCommand,
    /// There is no file.
    NoFile,
    /// `--data` stands with no file, or with many.
    Data,
    /// The word is no degree.
    Degree,
    /// The word is no meter.
    Meter,
    /// The word is no meter with a number.
    Within,
    /// The word is no width of lines.
    Width,
    /// There is no file of bounds.
    NoBounds,
    /// A file of bounds stands beside one that is to be written.
    TwoBounds,
    /// `--force` stands where nothing is to be written.
    Force,
    /// `--force` stands without the file that it writes over.
    Unwritten,
    /// `--json` stands where a file is to be written.
    Json,
    /// There is no certificate.
    NoCertificate,
    /// There is no name of a function.
    NoName,
    /// There are neither sizes nor files of arguments.
    NoArguments,
    /// Sizes stand beside files of arguments.
    TwoArguments,
    /// `--seed` stands where no arguments are made.
    SeedOfData,
    /// There is no file for a picture.
    NoOutput,
    /// The word is no seed.
    Seed,
    /// The word is no number of pivots.
    Pivots,
    /// There is no function.
    NoFunction,
}

impl Mistake {
    /// The fault of such words.
    pub fn told(self, alloc: Global) -> WordsFault
        ensures { IsRefusal result }
    {
        match String::from_str(alloc, self.text()) {
            Ok(text) => WordsFault::Refused { text },
            Err(AllocError) => WordsFault::NoMemory,
        }
    }

    fn text(self) -> &'static str {
        match self {
            Mistake::NoCommand => "error: no command is given\n",
            Mistake::NoFile => "error: no file is given\n",
            Mistake::Data => "error: '--data <NAME> <DATA>' stands with one file\n",
            Mistake::Degree => "error: '--degree <D>' takes 1, 2, 3 or 4\n",
            Mistake::Meter => "error: '--meter <METER>' takes ticks, cells or work\n",
            Mistake::Within => {
                "error: '--within <METER=N>' takes ticks=N, cells=N or work=N, with a whole number N of at most 2^127\n"
            }
            Mistake::Width => "error: '--width <N>' takes a whole number from 20 to 99999\n",
            Mistake::NoBounds =>
                "error: no file of bounds is given: BOUNDS, or '--write <BOUNDS>'\n",
            Mistake::TwoBounds =>
                "error: '--write <BOUNDS>' can't stand with another file BOUNDS\n",
            Mistake::Force => "error: '--force' stands with '--write <BOUNDS>' alone\n",
            Mistake::Unwritten => "error: '--force' stands with '--write <OTHER>' alone\n",
            Mistake::Json => "error: '--json' can't stand with '--write <BOUNDS>'\n",
            Mistake::NoCertificate => "error: no certificate is given\n",
            Mistake::NoName => "error: no function is given\n",
            Mistake::NoArguments =>
                "error: no arguments are given: '--sizes <SIZES>' or '--data <DATA>...'\n",
            Mistake::TwoArguments =>
                "error: '--sizes <SIZES>' can't stand with '--data <DATA>...'\n",
            Mistake::SeedOfData => "error: '--seed <N>' stands with '--sizes <SIZES>' alone\n",
            Mistake::NoOutput => "error: no file for the picture is given\n",
            Mistake::Seed => "error: '--seed <N>' takes a whole number below 2^64\n",
            Mistake::Pivots => {
                "error: '--budget <PIVOTS>' takes a whole number of at most 1000000000\n"
            }
            Mistake::NoFunction => "error: no function is given: '--function <F>'\n",
        }
    }
}
