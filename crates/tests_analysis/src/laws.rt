// Worked examples of the definitions: each is the contract of a function that does nothing.
ghost use Rattle.tests_analysis.specs.NineLists.{NineExamples};
ghost use Rattle.tests_analysis.specs.Scaled.{ScaledExamples};

/// A small certificate over scales is held, and the lines of two functions are in order.
pub fn scaled_certificates()
    ensures { ScaledExamples }
{}

/// Of nine lists the ninth is not joined.
pub fn targets_of_nine_lists()
    ensures { NineExamples }
{}
