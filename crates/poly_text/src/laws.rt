// Laws: each is the contract of a function that does nothing.
ghost use Rattle.poly_text.specs.Lowest.{DividesOut};
ghost use Rattle.poly_text.specs.Text.{PolynomialsHaveOneText};

/// Coefficients are written in lowest terms.
pub fn divides_out()
    ensures { DividesOut }
{}

/// A polynomial has one text.
pub fn polynomials_have_one_text()
    ensures { PolynomialsHaveOneText }
{}
