// The lines on which forms of a body begin.
ghost use Rattle.std.specs.Prelude.{◌≡◌, ◌≤◌, ◌<◌, ◌+◌, ◌*◌, ◌^◌, ◌++◌, ◌∷◌, List, OnOk, IfOk};
ghost use Rattle.std.specs.List.{list_any};
ghost use Rattle.raml_syntax.specs.Read.{term_of};
ghost use Rattle.explain_places.specs.Places.{is_newline};
ghost use Rattle.explain_regions.specs.Regions as r;
ghost use Rattle.explain_regions.specs.Lines as l;
ghost use Rattle.explain_regions.specs.Read.{site_of, sites_of, plain_line, plain_lines};

use crate::site::{Site, body_sites};
use raml_syntax::{Expr, Pos};
use std::alloc::{AllocError, Global};

/// A line of a source, with what the forms that begin on it cost together where each is run once.
#[derive(Clone, Copy, PartialEq, Eq, Debug)]
pub struct Line {
    /// Where the first form begins that begins on the line.
    pub at: Pos,
    /// Where the region of that form begins.
    pub region: Pos,
    pub ticks: u128,
    pub cells: u128,
    pub work: u128,
}

impl Line {
    /// The line of a form.
    fn of(site: Site) -> Line
        ensures { plain_line result ≡ l.alone (site_of site) }
    {
        Line {
            at: site.at,
            region: site.region,
            ticks: site.ticks as u128,
            cells: site.cells as u128,
            work: 1,
        }
    }

    /// With one form more.
    fn with(self, site: Site) -> Line
        requires ticks { self.ticks < 2 ^ 127 }
        requires cells { self.cells < 2 ^ 127 }
        requires work { self.work < 2 ^ 127 }
        ensures { plain_line result ≡ l.joined (plain_line self) (l.alone (site_of site)) }
    {
        Line {
            ticks: self.ticks + site.ticks as u128,
            cells: self.cells + site.cells as u128,
            work: self.work + 1,
            ..self
        }
    }
}

/// Whether a line ends in the text.
fn has_newline(text: &[u8]) -> bool
    ensures { result ≡ list_any is_newline text.now }
{
    for byte in text {
        if *byte == b'\n' {
            return true;
        }
    }
    false
}

/// Whether a line ends between two bytes.
fn ends_between(source: &[u8], from: usize, to: usize) -> bool
    ensures { result ≡ l.ends_between source.now from to }
{
    let rest = &source[from.min(source.len())..];
    has_newline(&rest[..to.saturating_sub(from).min(rest.len())])
}

/// Goes on with one form: it ends the line, which is then added, or stands on it.
fn go_on(
    source: &[u8],
    found: &mut Vec<Line>,
    line: &mut Line,
    last: Pos,
    site: Site,
) -> Result<(), AllocError>
    requires ticks { line.old.ticks < 2 ^ 127 }
    requires cells { line.old.cells < 2 ^ 127 }
    requires work { line.old.work < 2 ^ 127 }
    ensures lines { OnOk result ((lines : List l.Line) →
        plain_lines found.new.items ++ l.before source.now (plain_line line.new) site.at.0 lines
        ≡ plain_lines found.old.items ++ l.before source.now (plain_line line.old) last.0
        (l.before source.now (l.alone (site_of site)) site.at.0 lines)) }
    ensures ticks { line.new.ticks ≤ line.old.ticks + 2 ^ 32 }
    ensures cells { line.new.cells ≤ line.old.cells + 2 ^ 32 }
    ensures work { line.new.work ≤ line.old.work + 1 }
{
    if ends_between(source, last.0 as usize, site.at.0 as usize) {
        found.push(*line)?;
        *line = Line::of(site);
    } else {
        *line = line.with(site);
    }
    Ok(())
}

/// The lines of a form and those behind it.
fn lines_from(
    alloc: Global,
    source: &[u8],
    first: Site,
    rest: &[Site],
) -> Result<Vec<Line>, AllocError>
    ensures { IfOk result (λ found. plain_lines found.items
        ≡ l.lines_in source.now (site_of first ∷ sites_of rest.now)) }
{
    let mut found = Vec::new(alloc);
    let mut line = Line::of(first);
    let mut last = first.at;
    for site in rest {
        go_on(source, &mut found, &mut line, last, *site)?;
        last = site.at;
    }
    found.push(line)?;
    Ok(found)
}

/// The lines of a body, in the order of the source.
pub fn lines(alloc: Global, source: &[u8], body: &Expr) -> Result<Vec<Line>, AllocError>
    ensures { IfOk result (λ found. plain_lines found.items ≡ l.lines source.now (term_of body.now)) }
{
    let sites = body_sites(alloc, body)?;
    match sites.as_slice() {
        [] => Ok(Vec::new(alloc)),
        [first, rest @ ..] => lines_from(alloc, source, *first, rest),
    }
}
