// Reasons.
use explain_exchange::Exchanged;
use explain_inline::Inlined;
use explain_rebuild::Rebuilt;
use explain_rounds::{GroupCall, SamePart};
use explain_supply::Supplied;
use explain_uses::PaidTwice;
use raml_syntax::FunId;

/// Why a group of functions has no bound.
#[derive(Drop)]
pub enum Reason<'a> {
    /// It calls a function that has no bound. Calls inside the group, where that is so, at which nothing gets smaller, while
    /// no bound of the number of such calls is found.
    Waits {
        callee: FunId,
        stuck: Vec<GroupCall>,
    },
    /// It has bounds once values are built again.
    Rebuild(Rebuilt<'a>),
    /// It has bounds once calls are written out.
    Inline(Inlined),
    /// It has bounds once two parameters change places.
    Exchange(Exchanged),
    /// The number of calls inside the group has no bound, and at these nothing gets smaller. The program in which a list pays
    /// for the rounds, where that gives bounds.
    Stuck {
        calls: Vec<GroupCall>,
        supplied: Option<Supplied>,
    },
    /// The number of calls inside the group has no bound, and two that both happen get the same part.
    Twice(Vec<SamePart>),
    /// The number of calls inside the group has no bound, and these get what other calls made. The program in which a list pays
    /// for the rounds, where that gives bounds.
    Computed {
        calls: Vec<GroupCall>,
        supplied: Option<Supplied>,
    },
    /// The number of calls inside the group has a bound, and a function that it calls has one of this degree, the highest
    /// that is tried.
    DegreeTooLow {
        callee: FunId,
        degree: u8,
    },
    /// Values are used twice, and it has bounds where the later uses need not be paid for.
    PaidTwice(PaidTwice<'a>),
    /// None was found.
    NotFound,
}

/// A group of functions that has no bound, and why.
#[derive(Drop)]
pub struct Explained<'a> {
    pub group: Vec<FunId>,
    /// The first of them that has no bound.
    pub fun: FunId,
    pub reason: Reason<'a>,
}
