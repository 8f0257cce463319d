// A worked example of the definitions: the contract of a function that does nothing.
ghost use Rattle.tests_potential.specs.Printed.{PrintedPolynomials};

/// Small indices and polynomials have the texts that were worked out.
pub fn small_polynomials_have_texts()
    ensures { PrintedPolynomials }
{}
