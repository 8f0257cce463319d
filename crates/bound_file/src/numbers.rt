// The numbers of terms.
ghost use Rattle.std.specs.Prelude.{◌≡◌, ◌<ℤ◌, pos, option_map, unsigned_abs, IfOk, IfSome};
ghost use Rattle.bound_file.specs.Declares.{denominator_of};
ghost use Rattle.bound_file.specs.Reading.{in_range, counted, all_counted};
ghost use Rattle.bound_file.specs.Seen.{term_of, terms_of, counted_of, all_counted_of};

use crate::counted::Counted;
use crate::number::number;
use crate::term::Term;
use std::alloc::{AllocError, Global};

// The denominator of a term; without a stroke it is 1.
fn denominator<'a>(term: Term<'a>) -> Option<i128>
    ensures number { option_map unsigned_abs result ≡ in_range (denominator_of (term_of term.entry)) }
    ensures positive { IfSome result (λ number. pos 0 <ℤ number) }
{
    if term.denominator.is_empty() {
        Some(1)
    } else {
        number(term.denominator)
    }
}

// The term with its numbers, where these are in range.
fn counted<'a>(term: Term<'a>) -> Option<Counted<'a>>
    ensures { option_map counted_of result ≡ counted (term_of term.entry) }
{
    let numerator = number(term.numerator)?;
    let denominator = denominator(term)?;
    Some(Counted {
        tuple: term.tuple,
        numerator,
        denominator,
    })
}

/// The terms with their numbers, where all of these are from 1 to 2^127 - 1.
pub fn all_counted<'a>(
    alloc: Global,
    terms: &[Term<'a>],
) -> Result<Option<Vec<Counted<'a>>>, AllocError>
    ensures { IfOk result (λ found. option_map (λ cs. all_counted_of cs.items) found ≡ all_counted (terms_of terms.now)) }
{
    let mut found = Vec::new(alloc);
    for term in terms {
        let Some(one) = counted(*term) else {
            return Ok(None);
        };
        found.push(one)?;
    }
    Ok(Some(found))
}
