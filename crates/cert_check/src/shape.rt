// The shape of a block's signatures and hints.
ghost use Rattle.std.specs.Prelude.{◌≡◌, ◌↔◌, map, IsTrue};
ghost use Rattle.annot_types.specs.Certificate.{Rise};
ghost use Rattle.annot_types.specs.Held.{AllRise, HintRises, HintsRise, AllHintsRise, SigsRise};
ghost use Rattle.annot_types.specs.Read as a;
ghost use Rattle.rules_spec.specs.Stand.{Within};
ghost use Rattle.rules_spec.specs.Shape.{FitAsks};
ghost use Rattle.rules_walk.specs.Asks.{asks_of};
ghost use Rattle.rules_plan.specs.Read.{body_of};
ghost use Rattle.cert_check.specs.Finds.{SigsFit, AllFit};
ghost use Rattle.cert_check.specs.Asking.{all_asks_of};

use annot_types::{Annot, Hint, Sig, rise};
use rules_plan::Body;
use rules_walk::{Ask, fits};

// All positions are below the size.
fn is_within(size: usize, annot: &Annot) -> bool
    ensures within { IsTrue result ↔ Within size annot.now }
    ensures rises { Rise annot.now }
{
    for &(position, _) in annot.entries() {
        if position as usize >= size {
            return false;
        }
    }
    true
}

// The positions of a signature are in range.
fn sig_fits(body: &Body<'_>, sig: &Sig) -> bool
    ensures fits { IsTrue result ↔ (Within body.now.args sig.now.args × Within body.now.result sig.now.result) }
    ensures args { Rise sig.now.args }
    ensures result { Rise sig.now.result }
{
    let args = is_within(body.args, &sig.args);
    let result = is_within(body.result, &sig.result);
    args && result
}

/// There is a signature for each body, whose positions are in range.
pub fn sigs_fit(bodies: &[Body<'_>], sigs: &[Sig]) -> bool
    ensures fit { IsTrue result ↔ SigsFit (map body_of bodies.now) (map a.sig_of sigs.now) }
    ensures rise { IsTrue result → SigsRise (map a.sig_of sigs.now) }
{
    let mut sigs = sigs;
    for body in bodies {
        let [sig, rest @ ..] = sigs else {
            return false;
        };
        if !sig_fits(body, sig) {
            return false;
        }
        sigs = rest;
    }
    sigs.is_empty()
}

// The positions of an annotation rise.
fn rises(annot: &Annot)
    ensures { Rise annot.now }
{
    let _entries = annot.entries();
}

// So do those of each.
fn all_rise(annots: &[Annot])
    ensures { AllRise annots.now }
{
    for annot in annots {
        rises(annot);
    }
}

// A hint whose positions or blocks rise.
fn hint_rises(hint: &Hint) -> bool
    ensures { IsTrue result ↔ HintRises (a.hint_of hint.now) }
{
    match hint {
        Hint::Let(results) => {
            all_rise(results);
            true
        }
        Hint::Share(copies) => {
            rises(copies);
            true
        }
        Hint::Call(multiples) => rise(multiples),
    }
}

fn hints_rise(hints: &[Hint]) -> bool
    ensures { IsTrue result ↔ HintsRise (map a.hint_of hints.now) }
{
    for hint in hints {
        if !hint_rises(hint) {
            return false;
        }
    }
    true
}

// The hints of one body are those that are asked for, and rise.
fn are_fit(asks: &[Ask], hints: &[Hint]) -> bool
    ensures { IsTrue result ↔ (FitAsks (asks_of asks.now) (map a.hint_of hints.now) × HintsRise (map a.hint_of hints.now)) }
{
    fits(asks, hints) && hints_rise(hints)
}

/// So are those of each body.
pub fn hints_fit(asks: &[Vec<Ask>], hints: &[Vec<Hint>]) -> bool
    ensures { IsTrue result ↔ (AllFit (all_asks_of asks.now) (map a.hints_of hints.now) × AllHintsRise (map a.hints_of hints.now)) }
{
    let mut hints = hints;
    for asked in asks {
        let [told, rest @ ..] = hints else {
            return false;
        };
        if !are_fit(asked, told) {
            return false;
        }
        hints = rest;
    }
    hints.is_empty()
}
