// Laws: each is the contract of a function that does nothing.
ghost use Rattle.report_text.specs.Polynomial.{PolynomialsHaveThisText};

/// The text that a polynomial has is a function of its denominator and terms.
pub fn polynomials_have_this_text()
    ensures { PolynomialsHaveThisText }
{}
