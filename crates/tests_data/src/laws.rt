// A worked example of the definitions: the contract of a function that does nothing.
ghost use Rattle.tests_data.specs.Spelled.{SpelledData};

/// Short data spells the values, or has the first fault, that were worked out.
pub fn short_data_is_spelled()
    ensures { SpelledData }
{}
