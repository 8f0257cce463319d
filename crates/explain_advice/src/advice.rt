// What is told of functions without a bound.
ghost use Rattle.std.specs.Prelude.{◌<◌, ◌^◌, length, OnOk};
ghost use Rattle.std.specs.List.{All};
ghost use Rattle.raml_syntax.specs.Read.{program_of};
ghost use Rattle.explain_advice.specs.Advice.{IsAdvised, IsGroupAdded};
ghost use Rattle.explain_advice.specs.Changes.{CanBeTold};

use crate::advised::Advised;
use crate::change::{change_of, push_change};
use crate::information::information;
use explain_reasons::Explained;
use explain_sentences::sentences;
use lsp_language::Insight;
use std::alloc::{AllocError, Global};

/// Adds to what is known of a program why groups of its functions have no bound: of each an information at the first place that
/// is told of it, with the others as related ones; and where a change gives the group its bounds, that change, which is offered
/// at the same place.
pub fn add_advice(
    alloc: Global,
    insight: &mut Insight,
    advised: &Advised<'_>,
    reasons: &[Explained<'_>],
) -> Result<(), AllocError>
    requires few { length (program_of advised.now.program.now) < 2 ^ 32 }
    requires told { All CanBeTold reasons.now }
    ensures { OnOk result (IsAdvised advised.now.source.now (program_of advised.now.program.now) advised.now.found.now
        reasons.now insight.old insight.new) }
{
    match reasons {
        [] => Ok(()),
        [first, rest @ ..] => {
            add_group(alloc, insight, advised, first)?;
            add_advice(alloc, insight, advised, rest)
        }
    }
}

/// Adds what is told of a group.
fn add_group(
    alloc: Global,
    insight: &mut Insight,
    advised: &Advised<'_>,
    explained: &Explained<'_>,
) -> Result<(), AllocError>
    requires few { length (program_of advised.now.program.now) < 2 ^ 32 }
    requires told { CanBeTold explained.now }
    ensures { OnOk result (IsGroupAdded advised.now.source.now (program_of advised.now.program.now) advised.now.found.now
        explained.now insight.old insight.new) }
{
    let sentences = sentences(alloc, advised.program, explained)?;
    match sentences.as_slice() {
        [] => Ok(()),
        [first, others @ ..] => {
            let told = information(alloc, advised, explained, first, others)?;
            insight.diagnostics.push(told)?;
            let change = change_of(&explained.reason);
            let (source, fun) = (advised.source, explained.fun);
            push_change(alloc, &mut insight.actions, source, change, fun, first.at)
        }
    }
}
