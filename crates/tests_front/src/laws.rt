// Worked examples of the definitions: each is the contract of a function that does nothing.
ghost use Rattle.tests_front.specs.Lexed.{LexedTexts};
ghost use Rattle.tests_front.specs.Parsed.{ReadTokens};
ghost use Rattle.tests_front.specs.Typing.{FoundTypes};

/// Short texts have the tokens, or the first fault, that were worked out.
pub fn short_texts_have_tokens()
    ensures { LexedTexts }
{}

/// Short programs have the trees, or the first fault, that were worked out.
pub fn short_programs_are_read()
    ensures { ReadTokens }
{}

/// Small expressions and programs have the types, or the first fault, that were worked out.
pub fn small_types_are_found()
    ensures { FoundTypes }
{}
