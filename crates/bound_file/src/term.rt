// Terms as they are written.
ghost use Rattle.bound_file.specs.Digits.{AreNumbers};

/// What is written in a term: the digits of its numbers, and its tuple. Without a stroke nothing stands
/// for the denominator, and nothing stands for the zero tuple.
#[derive(Clone, Copy, Debug)]
pub struct Term<'a> {
    pub numerator: &'a str,
    pub denominator: &'a str,
    pub tuple: &'a str,
    ghost numbers: { AreNumbers numerator.now denominator.now },
}
