// Numbers that are multiplied by one: they stay as they are, and each fits.
ghost use Rattle.std.specs.Prelude.{Vec};
ghost use Rattle.std.specs.Global.{Global as TheGlobal};
ghost use Rattle.std.specs.List.{All};
ghost use Rattle.annot_types.specs.Read.{sig_of, hint_of, body_of};
ghost use Rattle.annot_types.specs.declared.block.Hint.{Hint as TheHint};
ghost use Rattle.infer_spec.specs.Places.{EntriesFit, HintFits, SigFits, BodyFits};
ghost use Rattle.bound_infer.specs.Fitting.{HintsFit};

use annot_types::{Annot, BlockBody, Hint, Sig};

// Nothing is done: a number that is there has its type's range.
fn entries_fit(entries: &[(u32, i128)])
    ensures { EntriesFit 1 entries.now }
{
    for index in 0..entries.len() {
        let (_place, _number) = entries[index];
    }
}

fn annots_fit(annots: &[Annot])
    ensures { All (EntriesFit 1) annots.now }
{
    for index in 0..annots.len() {
        entries_fit(annots[index].entries());
    }
}

fn sig_fits(sig: &Sig)
    ensures { SigFits 1 (sig_of sig.now) }
{
    entries_fit(sig.args.entries());
    entries_fit(sig.result.entries());
}

fn sigs_fit(sigs: &[Sig])
    ensures { All (λ s. SigFits 1 (sig_of s)) sigs.now }
{
    for index in 0..sigs.len() {
        sig_fits(&sigs[index]);
    }
}

fn hint_fits(hint: &Hint)
    ensures { HintFits 1 (hint_of hint.now) }
{
    match hint {
        Hint::Let(results) => annots_fit(results),
        Hint::Share(copies) => entries_fit(copies.entries()),
        Hint::Call(multiples) => entries_fit(multiples),
    }
}

fn hints_fit(hints: &[Hint])
    ensures { HintsFit 1 hints.now }
{
    for index in 0..hints.len() {
        hint_fits(&hints[index]);
    }
}

fn all_hints_fit(lists: &[Vec<Hint>])
    ensures { All (λ (hs : Vec TheHint TheGlobal). HintsFit 1 hs.items) lists.now }
{
    for index in 0..lists.len() {
        hints_fit(&lists[index]);
    }
}

/// Each number of a block fits.
pub(crate) fn body_fits(body: &BlockBody)
    ensures { BodyFits 1 (body_of body.now) }
{
    match body {
        BlockBody::Solved { sigs, hints } => {
            sigs_fit(sigs);
            all_hints_fit(hints);
        }
        BlockBody::Refuted { .. } | BlockBody::Calls { .. } => {}
    }
}
