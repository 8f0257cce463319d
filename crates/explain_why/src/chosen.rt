// Which groups are told of.
ghost use Rattle.std.specs.Prelude.{◌≡◌, slice_get};
ghost use Rattle.raml_syntax.specs.Read.{place_in};
ghost use Rattle.call_groups.specs.Read.{ids_of};
ghost use Rattle.explain_lines.specs.Lines.{passes};
ghost use Rattle.explain_lines.specs.Read.{line_of};
ghost use Rattle.explain_reasons.specs.Explanation.{note_in};
ghost use Rattle.explain_why.specs.Chosen as c;
ghost use Rattle.explain_why.specs.Chosen.{asking_in};

use cost_free::Meter;
use explain_degrees::Findings;
use explain_lines::{Line, is_unbounded, lacks};
use explain_reasons::{Explained, Note, Reason};
use explain_rounds::is_in;
use raml_syntax::FunId;

/// What is asked about: one function, or each; one meter, or each.
#[derive(Clone, Copy, Debug)]
pub(crate) struct Asking {
    pub(crate) fun: Option<FunId>,
    pub(crate) meter: Option<Meter>,
}

/// Whether there is no bound of the meter that is asked about, or of some where none is.
fn lacks_of(meter: Option<Meter>, findings: &Findings) -> bool
    ensures { result ≡ c.lacks_of meter findings.now }
{
    match meter {
        Some(meter) => is_unbounded(findings.of(meter)),
        None => lacks(findings),
    }
}

fn lacks_at(meter: Option<Meter>, found: &[Findings], fun: FunId) -> bool
    ensures { result ≡ passes (c.lacks_of meter) (slice_get found.now fun.0) }
{
    match found.get(fun.0 as usize) {
        Some(findings) => lacks_of(meter, findings),
        None => false,
    }
}

/// Whether that is so of some function of the group.
fn some_lacks(meter: Option<Meter>, found: &[Findings], group: &[FunId]) -> bool
    ensures { result ≡ c.some_lacks meter found.now (ids_of group.now) }
{
    match group {
        [] => false,
        [fun, rest @ ..] => lacks_at(meter, found, *fun) || some_lacks(meter, found, rest),
    }
}

/// The function for which a group waits.
fn callee_of(reason: &Reason<'_>) -> Option<FunId>
    ensures { place_in result ≡ c.callee_of reason.now }
{
    match reason {
        Reason::Waits { callee, .. } => Some(*callee),
        Reason::Rebuild(_)
        | Reason::Inline(_)
        | Reason::Exchange(_)
        | Reason::Stuck { .. }
        | Reason::Twice(_)
        | Reason::Computed { .. }
        | Reason::DegreeTooLow { .. }
        | Reason::PaidTwice(_)
        | Reason::NotFound => None,
    }
}

/// The function for which the group of a function waits.
fn waited_by(reasons: &[Explained<'_>], fun: FunId) -> Option<FunId>
    ensures { place_in result ≡ c.waited_by reasons.now fun.0 }
{
    match reasons {
        [] => None,
        [first, rest @ ..] => {
            if is_in(fun, &first.group) {
                callee_of(&first.reason)
            } else {
                waited_by(rest, fun)
            }
        }
    }
}

/// Whether the function is of the group, or its group waits for a function of which that is so. What is left bounds the
/// steps.
fn leads_to<'a>(
    reasons: &[Explained<'a>],
    left: &[Explained<'a>],
    fun: Option<FunId>,
    group: &[FunId],
) -> bool
    ensures { result ≡ c.leads_to reasons.now left.now (place_in fun) (ids_of group.now) }
{
    match fun {
        None => false,
        Some(fun) => match left {
            [] => is_in(fun, group),
            [_, rest @ ..] => {
                is_in(fun, group) || leads_to(reasons, rest, waited_by(reasons, fun), group)
            }
        },
    }
}

fn is_about(fun: Option<FunId>, reasons: &[Explained<'_>], group: &[FunId]) -> bool
    ensures { result ≡ c.is_about (place_in fun) reasons.now (ids_of group.now) }
{
    match fun {
        None => true,
        Some(_) => leads_to(reasons, reasons, fun, group),
    }
}

fn is_function(asked: Option<FunId>, fun: FunId) -> bool
    ensures { result ≡ c.is_function (place_in asked) fun.0 }
{
    match asked {
        None => true,
        Some(asked) => asked.0 == fun.0,
    }
}

fn is_meter(asked: Option<Meter>, meter: Meter) -> bool
    ensures { result ≡ c.is_meter asked meter }
{
    match asked {
        None => true,
        Some(Meter::Ticks) => matches!(meter, Meter::Ticks),
        Some(Meter::Cells) => matches!(meter, Meter::Cells),
        Some(Meter::Work) => matches!(meter, Meter::Work),
    }
}

impl Asking {
    /// Whether a group is told of: that of the function that is asked about, and those for which that waits, where a bound
    /// of the meter is missing.
    pub(crate) fn tells<'a>(
        self,
        found: &[Findings],
        reasons: &[Explained<'a>],
        explained: &Explained<'a>,
    ) -> bool
        ensures { result ≡ c.is_told (asking_in self) found.now reasons.now explained.now }
    {
        is_about(self.fun, reasons, &explained.group)
            && some_lacks(self.meter, found, &explained.group)
    }

    fn is_line(self, line: Line) -> bool
        ensures { result ≡ c.is_line (asking_in self) (line_of line) }
    {
        is_function(self.fun, line.fun) && is_meter(self.meter, line.meter)
    }

    /// Whether a note is told.
    pub(crate) fn notes(self, note: Note) -> bool
        ensures { result ≡ c.is_noted (asking_in self) (note_in note) }
    {
        match note {
            Note::FromDegree { line, .. } => self.is_line(line),
            Note::AtLowerDegreeAlone { line, .. } => self.is_line(line),
        }
    }
}

/// Whether some of these groups is told of.
pub(crate) fn tells_some<'a>(
    asking: Asking,
    found: &[Findings],
    reasons: &[Explained<'a>],
    some: &[Explained<'a>],
) -> bool
    ensures { result ≡ c.some_told (asking_in asking) found.now reasons.now some.now }
{
    match some {
        [] => false,
        [first, rest @ ..] => {
            asking.tells(found, reasons, first) || tells_some(asking, found, reasons, rest)
        }
    }
}
