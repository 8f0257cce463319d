// Blocks whose numbers leave 127 bits where they are multiplied.
ghost use Rattle.std.specs.Prelude.{◌≡◌, ◌*◌, ◌<ℤ◌, ◌*ℤ◌, ℕ, pos, map, nat_lt, unsigned_abs, IfSome, IfNone};
ghost use Rattle.std.specs.List.{list_all};
ghost use Rattle.cost_free.specs.Blocked.{is_for_meter};
ghost use Rattle.cost_free.specs.Read.{kind_of};
ghost use Rattle.annot_types.specs.Read.{sig_of, hint_of, hints_of, body_of, block_of, blocks_of};
ghost use Rattle.rules_spec.specs.CappedRows.{fits};
ghost use Rattle.simplex_integers.specs.Wholes.{most};
ghost use Rattle.infer_spec.specs.States.{State};
ghost use Rattle.infer_spec.specs.Places.{BlockLeaves};
ghost use Rattle.other_blocks.specs.Leaving.{entries_fit, sig_fits, hint_fits, body_fits, is_solved, is_leaving, first_leaving};

use annot_types::{Annot, Block, BlockBody, Hint, Sig};
use cost_free::{Meter, TaskKind};

fn number_fits(factor: i128, number: i128) -> bool
    ensures { result ≡ fits (factor *ℤ number) }
{
    factor.checked_mul(number).is_some()
}

fn entries_fit(factor: i128, entries: &[(u32, i128)]) -> bool
    ensures { result ≡ entries_fit factor entries.now }
{
    for entry in entries {
        if !number_fits(factor, entry.1) {
            return false;
        }
    }
    true
}

fn annots_fit(factor: i128, annots: &[Annot]) -> bool
    ensures { result ≡ list_all (entries_fit factor) annots.now }
{
    for annot in annots {
        if !entries_fit(factor, annot.entries()) {
            return false;
        }
    }
    true
}

fn sig_fits(factor: i128, sig: &Sig) -> bool
    ensures { result ≡ sig_fits factor (sig_of sig.now) }
{
    entries_fit(factor, sig.args.entries()) && entries_fit(factor, sig.result.entries())
}

fn sigs_fit(factor: i128, sigs: &[Sig]) -> bool
    ensures { result ≡ list_all (sig_fits factor) (map sig_of sigs.now) }
{
    for sig in sigs {
        if !sig_fits(factor, sig) {
            return false;
        }
    }
    true
}

fn hint_fits(factor: i128, hint: &Hint) -> bool
    ensures { result ≡ hint_fits factor (hint_of hint.now) }
{
    match hint {
        Hint::Let(results) => annots_fit(factor, results),
        Hint::Share(copies) => entries_fit(factor, copies.entries()),
        Hint::Call(multiples) => entries_fit(factor, multiples),
    }
}

fn hints_fit(factor: i128, hints: &[Hint]) -> bool
    ensures { result ≡ list_all (hint_fits factor) (map hint_of hints.now) }
{
    for hint in hints {
        if !hint_fits(factor, hint) {
            return false;
        }
    }
    true
}

fn all_hints_fit(factor: i128, lists: &[Vec<Hint>]) -> bool
    ensures { result ≡ list_all (list_all (hint_fits factor)) (map hints_of lists.now) }
{
    for hints in lists {
        if !hints_fit(factor, hints) {
            return false;
        }
    }
    true
}

fn body_fits(factor: i128, body: &BlockBody) -> bool
    ensures { result ≡ body_fits factor (body_of body.now) }
{
    match body {
        BlockBody::Solved { sigs, hints } => {
            sigs_fit(factor, sigs) && all_hints_fit(factor, hints)
        }
        BlockBody::Refuted { .. } | BlockBody::Calls { .. } => true,
    }
}

fn is_for_meter(meter: Meter, kind: TaskKind) -> bool
    ensures { result ≡ is_for_meter meter (kind_of kind) }
{
    match kind {
        TaskKind::Free { .. } => false,
        TaskKind::With(other) => meter == other,
    }
}

fn is_solved(body: &BlockBody) -> bool
    ensures { result ≡ is_solved (body_of body.now) }
{
    matches!(body, BlockBody::Solved { .. })
}

fn is_leaving(meter: Meter, factor: i128, scale_fits: bool, block: &Block) -> bool
    ensures { result ≡ is_leaving meter factor scale_fits (block_of block.now) }
{
    is_for_meter(meter, block.task.kind)
        && is_solved(&block.body)
        && !(scale_fits && body_fits(factor, &block.body))
}

fn first_among(meter: Meter, factor: i128, scale_fits: bool, blocks: &[Block]) -> Option<usize>
    ensures { result ≡ first_leaving meter factor scale_fits (blocks_of blocks.now) }
{
    for place in 0..blocks.len() {
        if is_leaving(meter, factor, scale_fits, &blocks[place]) {
            return Some(place);
        }
    }
    None
}

// Whether the product is a number of 128 bits with a sign.
fn product_fits(factor: u128, scale: u128) -> bool
    ensures { result ≡ nat_lt (factor * scale) most }
{
    match factor.checked_mul(scale) {
        Some(product) => i128::try_from(product).is_ok(),
        None => false,
    }
}

/// The place of the first solved block of the meter of which a number, or the scale of the meter, leaves 127
/// bits where it is multiplied by the factor; None where there is no such block. No memory is taken.
pub fn first_leaving(blocks: &[Block], meter: Meter, factor: i128, scale: u128) -> Option<usize>
    requires { pos 0 <ℤ factor }
    ensures some { IfSome result
        (λ place. (st : State) → st.blocks ≡ blocks_of blocks.now → st.scales meter ≡ scale →
        BlockLeaves meter (unsigned_abs factor) st place) }
    ensures none { IfNone result
        ((st : State) → st.blocks ≡ blocks_of blocks.now → st.scales meter ≡ scale → (place : ℕ) →
        BlockLeaves meter (unsigned_abs factor) st place → ⊥) }
{
    let scale_fits = product_fits(factor.unsigned_abs(), scale);
    first_among(meter, factor, scale_fits, blocks)
}
