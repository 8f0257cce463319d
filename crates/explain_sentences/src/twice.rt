// Sentences on values that are used twice.
ghost use Rattle.std.specs.Prelude.{◌≡◌, ◌++◌, [], ◌∷◌, IfOk, OnOk, string_bytes};
ghost use Rattle.explain_uses.specs.Read.{use_of, uses_of};
ghost use Rattle.explain_sentences.specs.Sentences as s;
ghost use Rattle.explain_sentences.specs.Read.{sentences_of};

use crate::sentence::Sentence;
use explain_uses::LaterUse;
use std::alloc::{AllocError, Global};

fn first_text(alloc: Global, variable: &str, function: &str) -> Result<String, AllocError>
    ensures { IfOk result (λ why. string_bytes why ≡ s.why_first variable.now function.now) }
{
    format!(in alloc; "`{variable}` of `{function}` is used here")
}

fn again_text(alloc: Global, variable: &str, function: &str) -> Result<String, AllocError>
    ensures { IfOk result (λ why. string_bytes why ≡ s.why_again variable.now function.now) }
{
    format!(in alloc;
        "`{variable}` of `{function}` is used here again, and there would be a bound without this use"
    )
}

/// What is said at the first use.
fn why_first(alloc: Global, later: LaterUse<'_>) -> Result<String, AllocError>
    ensures { IfOk result (λ why. string_bytes why ≡ s.why_first (use_of later.entry).variable (use_of later.entry).function) }
{
    first_text(alloc, later.variable.text(), later.function.text())
}

/// What is said at the later one.
fn why_again(alloc: Global, later: LaterUse<'_>) -> Result<String, AllocError>
    ensures { IfOk result (λ why. string_bytes why ≡ s.why_again (use_of later.entry).variable (use_of later.entry).function) }
{
    again_text(alloc, later.variable.text(), later.function.text())
}

/// Adds the sentence on the first use.
fn add_first(
    alloc: Global,
    sentences: &mut Vec<Sentence>,
    later: LaterUse<'_>,
) -> Result<(), AllocError>
    ensures { OnOk result (sentences_of sentences.new.items
        ≡ sentences_of sentences.old.items ++ (s.at_first (use_of later.entry) ∷ [])) }
{
    let text = why_first(alloc, later)?;
    sentences.push(Sentence {
        at: later.first,
        text,
    })?;
    Ok(())
}

/// Adds the sentence on the later one.
fn add_again(
    alloc: Global,
    sentences: &mut Vec<Sentence>,
    later: LaterUse<'_>,
) -> Result<(), AllocError>
    ensures { OnOk result (sentences_of sentences.new.items
        ≡ sentences_of sentences.old.items ++ (s.at_again (use_of later.entry) ∷ [])) }
{
    let text = why_again(alloc, later)?;
    sentences.push(Sentence { at: later.at, text })?;
    Ok(())
}

/// Adds the sentences on both uses.
fn add_use(
    alloc: Global,
    sentences: &mut Vec<Sentence>,
    later: LaterUse<'_>,
) -> Result<(), AllocError>
    ensures { OnOk result (sentences_of sentences.new.items
        ≡ sentences_of sentences.old.items ++ s.of_uses (use_of later.entry ∷ [])) }
{
    add_first(alloc, sentences, later)?;
    add_again(alloc, sentences, later)
}

/// Adds those on all values.
pub(crate) fn add_uses(
    alloc: Global,
    sentences: &mut Vec<Sentence>,
    uses: &[LaterUse<'_>],
) -> Result<(), AllocError>
    ensures { OnOk result (sentences_of sentences.new.items
        ≡ sentences_of sentences.old.items ++ s.of_uses (uses_of uses.now)) }
{
    for later in uses {
        add_use(alloc, sentences, *later)?;
    }
    Ok(())
}
