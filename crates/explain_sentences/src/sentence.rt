// Sentences.
ghost use Rattle.std.specs.Prelude.{◌≡◌, ◌++◌, [], ◌∷◌, OnOk};
ghost use Rattle.raml_syntax.specs.Read.{program_of};
ghost use Rattle.explain_sentences.specs.Sentences as s;
ghost use Rattle.explain_sentences.specs.Read.{sentences_of};

use raml_syntax::{FunId, Pos, Program};
use std::alloc::{AllocError, Global};

/// Why a function has no bound, at a place of its source. What stands in front of it, `first_head` and `next_head` give.
#[derive(Debug, Drop)]
pub struct Sentence {
    pub at: Pos,
    pub text: String,
}

/// Where a function begins.
pub(crate) fn begin_of(program: &Program, fun: FunId) -> Pos
    ensures { result.0 ≡ s.begin_of (program_of program.now) fun.0 }
{
    match program.funs.get(fun.0 as usize) {
        Some(fun) => fun.at,
        None => Pos(0),
    }
}

/// Adds a sentence of this text.
pub(crate) fn add_text(
    alloc: Global,
    sentences: &mut Vec<Sentence>,
    at: Pos,
    text: &str,
) -> Result<(), AllocError>
    ensures { OnOk result (sentences_of sentences.new.items
        ≡ sentences_of sentences.old.items ++ (s.sentence at.0 text.now ∷ [])) }
{
    let text = String::from_str(alloc, text)?;
    sentences.push(Sentence { at, text })?;
    Ok(())
}
