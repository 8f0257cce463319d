// Changes that are tried for a group.
ghost use Rattle.std.specs.Prelude.{IfOk, IfSome};
ghost use Rattle.call_groups.specs.Read.{ids_of};
ghost use Rattle.explain_exchange.specs.Exchanged.{IsExchanged};
ghost use Rattle.explain_supply.specs.Supply.{IsSupplied};
ghost use Rattle.explain_reasons.specs.Asked.{IsAsked, source_in, program_in, found_in};
ghost use Rattle.explain_reasons.specs.Reasons.{RebuildHelps, InliningHelps, UsesArePaid};

use crate::asked::Asked;
use crate::kept::keeps_values;
use explain_exchange::{Exchanged, exchange};
use explain_inline::{Inlined, inline};
use explain_rebuild::{Rebuilt, reached_sites, rebuild};
use explain_supply::{Supplied, supply};
use explain_uses::{PaidTwice, paid_twice};
use raml_syntax::FunId;
use std::alloc::{AllocError, Global};

/// Values that are built again so that the group has bounds.
pub(crate) fn by_rebuilding<'s, 'a>(
    alloc: Global,
    asked: Asked<'s, 'a>,
    group: &[FunId],
) -> Result<Option<Rebuilt<'a>>, AllocError>
    requires { IsAsked asked }
    ensures { IfOk result (λ rebuilt. IfSome rebuilt (RebuildHelps (source_in asked.entry) (program_in asked.entry)
        (found_in asked.entry) asked.entry.original.most (ids_of group.now))) }
{
    let program = asked.typed.program();
    let sites = reached_sites(alloc, program, asked.groups, group, asked.sites)?;
    rebuild(alloc, asked.original, &sites, group)
}

/// Calls that are written out so that the group has bounds, where its functions keep their values on made runs.
pub(crate) fn by_inlining<'s, 'a>(
    alloc: Global,
    asked: Asked<'s, 'a>,
    group: &[FunId],
) -> Result<Option<Inlined>, AllocError>
    requires { IsAsked asked }
    ensures { IfOk result (λ inlined. IfSome inlined (InliningHelps (source_in asked.entry) (program_in asked.entry)
        (found_in asked.entry) asked.entry.original.most (ids_of group.now))) }
{
    match inline(alloc, asked.original, asked.groups, group)? {
        Some(inlined) => {
            let kept = keeps_values(alloc, asked, &inlined.trial, group)?;
            Ok(if kept { Some(inlined) } else { None })
        }
        None => Ok(None),
    }
}

/// Two parameters that are exchanged so that the group has bounds. By a law each function keeps its values so.
pub(crate) fn by_exchanging<'s, 'a>(
    alloc: Global,
    asked: Asked<'s, 'a>,
    group: &[FunId],
) -> Result<Option<Exchanged>, AllocError>
    requires { IsAsked asked }
    ensures { IfOk result (λ exchanged. IfSome exchanged (IsExchanged (program_in asked.entry) (found_in asked.entry)
        asked.entry.original.most (ids_of group.now))) }
{
    exchange(alloc, asked.original, asked.groups, group)
}

/// Later uses without which it has bounds.
pub(crate) fn by_uses<'s, 'a>(
    alloc: Global,
    asked: Asked<'s, 'a>,
    group: &[FunId],
) -> Result<Option<PaidTwice<'a>>, AllocError>
    requires { IsAsked asked }
    ensures { IfOk result (λ paid. IfSome paid (UsesArePaid (source_in asked.entry) (program_in asked.entry) (found_in asked.entry)
        asked.entry.original.most (ids_of group.now))) }
{
    paid_twice(alloc, asked.original, asked.groups, group, asked.uses)
}

/// The program in which a list pays for the rounds, where it has bounds so.
pub(crate) fn supplied<'s, 'a>(
    alloc: Global,
    asked: Asked<'s, 'a>,
    group: &[FunId],
) -> Result<Option<Supplied>, AllocError>
    requires { IsAsked asked }
    ensures { IfOk result (λ supplied. IfSome supplied (IsSupplied (source_in asked.entry) (program_in asked.entry)
        asked.entry.original.most (ids_of group.now))) }
{
    supply(alloc, asked.original, group)
}
