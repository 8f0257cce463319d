// What is said behind the sentences of a reason.
ghost use Rattle.std.specs.Prelude.{◌≡◌};
ghost use Rattle.explain_sentences.specs.Reasons as r;
ghost use Rattle.explain_sentences.specs.Sentences as s;

use crate::change::closing_of_inlined;
use explain_reasons::Reason;
use explain_rounds::GroupCall;

fn of_stuck(calls: &[GroupCall]) -> &'static str
    ensures { result.now ≡ s.closing_of_stuck calls.now }
{
    match calls {
        [] => "",
        [_, ..] =>
            "The analysis bounds such calls by a list or tree that gets smaller. It does not follow numbers, which may never reach their end; a list with an entry for each call can take their place.\n",
    }
}

/// What is said behind the sentences of a reason, in lines.
pub fn closing(reason: &Reason<'_>) -> &'static str
    ensures { result.now ≡ r.closing reason.now }
{
    match reason {
        Reason::Waits { callee: _, stuck } => of_stuck(stuck),
        Reason::Rebuild(_) =>
            "The analysis loses track of a value that is used whole beside its parts.\n",
        Reason::Inline(inlined) => closing_of_inlined(inlined.how),
        Reason::Exchange(_) =>
            "Where a result can be paid for from either of two values, the analysis settles on one of them for all calls; in another order it settles on the other one.\n",
        Reason::Stuck { calls, .. } => of_stuck(calls),
        Reason::Twice(_) =>
            "The number of calls doubles with each part, and no polynomial bounds that.\n",
        Reason::Computed { .. } =>
            "What another call made is not known to be smaller, so the number of calls has no bound.\n",
        Reason::DegreeTooLow { .. } => "",
        Reason::PaidTwice(_) =>
            "The analysis loses track of a value that is handed on and used again. Let the function that gets it give it back in every case, and go on with what it gave.\n",
        Reason::NotFound => "",
    }
}
