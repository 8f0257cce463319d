// Declared bounds.
ghost use Rattle.std.specs.Prelude.{◌≡◌};
ghost use Rattle.std.specs.List.{All};
ghost use Rattle.bound_file.specs.Read.{lines_of, IsSound};

use cost_free::Meter;
use raml_syntax::FunId;
use std::marker::Model;

/// That a function costs at most so much on a meter: numbers at positions of its parameters.
#[derive(Debug, Drop)]
pub struct DeclLine {
    pub fun: FunId,
    pub meter: Meter,
    /// Positions, in order, with numerators and denominators; where there is none the number is 0.
    pub bound: Vec<(u32, i128, i128)>,
}

/// Declared bounds of a program's functions, over their indices up to a degree.
#[derive(Debug, Drop)]
pub struct Declared {
    degree: u8,
    lines: Vec<DeclLine>,
}

impl Model for Declared {
    ghost use Rattle.std.specs.List.{All};
    ghost use Rattle.bound_file.specs.Lines.{Declaration};
    ghost use Rattle.bound_file.specs.Read.{lines_of, IsSound};

    ghost Value = { Declaration };

    ghost view = { λ d. record { degree = d.degree; lines = lines_of d.lines.items } };

    ghost invariant = { λ d. All IsSound d.lines.items };
}

impl Declared {
    /// Declared bounds over the indices up to this degree.
    pub(crate) fn new(degree: u8, lines: Vec<DeclLine>) -> Declared
        requires { All IsSound lines.items }
        ensures degree { result.degree ≡ degree }
        ensures lines { result.lines ≡ lines_of lines.items }
    {
        Declared { degree, lines }
    }

    /// The degree.
    pub fn degree(&self) -> u8
        ensures { result ≡ self.now.degree }
    {
        self.degree
    }

    /// The bounds in the order of the file, each of a function and a meter of its own. The numbers are
    /// positive, and the positions of a bound ascend.
    pub fn lines(&self) -> &[DeclLine]
        ensures lines { lines_of result.now ≡ self.now.lines }
        ensures sound { All IsSound result.now }
    {
        &self.lines
    }
}
