// The forms of a body, each with its region.
ghost use Rattle.std.specs.Prelude.{◌≡◌, [], ◌∷◌, ◌++◌, OnOk, IfOk};
ghost use Rattle.raml_syntax.specs.Read.{term_of, terms_of};
ghost use Rattle.simple_types.specs.Walk.{place};
ghost use Rattle.explain_regions.specs.Regions.{sites, all_sites, body_sites};
ghost use Rattle.explain_regions.specs.Regions as r;
ghost use Rattle.explain_regions.specs.Read.{site_of, sites_of};

use raml_syntax::{Expr, Form, Pos};
use std::alloc::{AllocError, Global};

/// A form, and what it costs beside its parts and one unit of work.
#[derive(Clone, Copy, Debug)]
pub(crate) struct Site {
    /// Where it begins.
    pub(crate) at: Pos,
    /// Where its region begins.
    pub(crate) region: Pos,
    pub(crate) ticks: u32,
    pub(crate) cells: u32,
}

/// Where an expression begins.
fn place(e: &Expr) -> Pos
    ensures { result.0 ≡ place (term_of e.now) }
{
    e.at
}

/// Adds a form that costs so much.
fn push_site(
    found: &mut Vec<Site>,
    at: Pos,
    region: Pos,
    ticks: u32,
    cells: u32,
) -> Result<(), AllocError>
    ensures { OnOk result (sites_of found.new.items ≡ sites_of found.old.items ++ (r.site at.0 region.0 ticks cells ∷ [])) }
{
    found.push(Site {
        at,
        region,
        ticks,
        cells,
    })?;
    Ok(())
}

/// Adds the forms of an expression of a region.
#[cycle(push_sites)]
fn push_sites(found: &mut Vec<Site>, region: Pos, e: &Expr) -> Result<(), AllocError>
    ensures { OnOk result (sites_of found.new.items ≡ sites_of found.old.items ++ sites region.0 (term_of e.now)) }
{
    let at = e.at;
    match &e.form {
        Form::Number(_) | Form::Truth(_) | Form::Nil | Form::Leaf | Form::Nothing | Form::Var(_) =>
            { push_site(found, at, region, 0, 0) }
        Form::Not(a) => push_one(found, at, region, 0, 0, a),
        Form::Just(a) => push_one(found, at, region, 0, 1, a),
        Form::Tick(ticks, a) => push_one(found, at, region, *ticks, 0, a),
        Form::Typed(a, _) => push_sites(found, region, a),
        Form::Arith(_, a, b) | Form::Compare(_, a, b) => push_two(found, at, region, 0, a, b),
        Form::Let(_, a, b) | Form::LetPair(_, _, a, b) => push_two(found, at, region, 0, a, b),
        Form::Pair(a, b) | Form::Cons(a, b) => push_two(found, at, region, 1, a, b),
        Form::Node(a, b, c) => push_node(found, at, region, a, b, c),
        Form::Call(_, args) => push_call(found, at, region, args),
        Form::If(c, a, b)
        | Form::MatchList(c, a, _, _, b)
        | Form::MatchTree(c, a, _, _, _, b)
        | Form::MatchOption(c, a, _, b) => push_branches(found, at, region, c, a, b),
    }
}

/// Adds a form with one part.
#[cycle(push_sites)]
fn push_one(
    found: &mut Vec<Site>,
    at: Pos,
    region: Pos,
    ticks: u32,
    cells: u32,
    part: &Expr,
) -> Result<(), AllocError>
    ensures { OnOk result (sites_of found.new.items
        ≡ sites_of found.old.items ++ (r.site at.0 region.0 ticks cells ∷ sites region.0 (term_of part.now))) }
{
    push_site(found, at, region, ticks, cells)?;
    push_sites(found, region, part)
}

/// Adds a form with two parts.
#[cycle(push_sites)]
fn push_two(
    found: &mut Vec<Site>,
    at: Pos,
    region: Pos,
    cells: u32,
    first: &Expr,
    second: &Expr,
) -> Result<(), AllocError>
    ensures { OnOk result (sites_of found.new.items
        ≡ sites_of found.old.items
        ++ (r.site at.0 region.0 0 cells ∷ (sites region.0 (term_of first.now) ++ sites region.0 (term_of second.now)))) }
{
    push_one(found, at, region, 0, cells, first)?;
    push_sites(found, region, second)
}

/// Adds a node of a tree.
#[cycle(push_sites)]
fn push_node(
    found: &mut Vec<Site>,
    at: Pos,
    region: Pos,
    element: &Expr,
    left: &Expr,
    right: &Expr,
) -> Result<(), AllocError>
    ensures { OnOk result (sites_of found.new.items
        ≡ sites_of found.old.items
        ++ (r.site at.0 region.0 0 1 ∷ (sites region.0 (term_of element.now)
        ++ (sites region.0 (term_of left.now) ++ sites region.0 (term_of right.now))))) }
{
    push_two(found, at, region, 1, element, left)?;
    push_sites(found, region, right)
}

/// Adds a call.
#[cycle(push_sites)]
fn push_call(found: &mut Vec<Site>, at: Pos, region: Pos, args: &[Expr]) -> Result<(), AllocError>
    ensures { OnOk result (sites_of found.new.items
        ≡ sites_of found.old.items ++ (r.site at.0 region.0 0 0 ∷ all_sites region.0 (terms_of args.now))) }
{
    push_site(found, at, region, 0, 0)?;
    push_all(found, region, args)
}

#[cycle(push_sites)]
fn push_all(found: &mut Vec<Site>, region: Pos, args: &[Expr]) -> Result<(), AllocError>
    ensures { OnOk result (sites_of found.new.items ≡ sites_of found.old.items ++ all_sites region.0 (terms_of args.now)) }
{
    for arg in args {
        push_sites(found, region, arg)?;
    }
    Ok(())
}

/// Adds a choice between two branches, which are regions of their own.
#[cycle(push_sites)]
fn push_branches(
    found: &mut Vec<Site>,
    at: Pos,
    region: Pos,
    subject: &Expr,
    first: &Expr,
    second: &Expr,
) -> Result<(), AllocError>
    ensures { OnOk result (sites_of found.new.items
        ≡ sites_of found.old.items
        ++ (r.site at.0 region.0 0 0 ∷ (sites region.0 (term_of subject.now)
        ++ (sites (place (term_of first.now)) (term_of first.now) ++ sites (place (term_of second.now)) (term_of second.now))))) }
{
    push_one(found, at, region, 0, 0, subject)?;
    push_sites(found, place(first), first)?;
    push_sites(found, place(second), second)
}

/// The forms of a body.
pub(crate) fn body_sites(alloc: Global, body: &Expr) -> Result<Vec<Site>, AllocError>
    ensures { IfOk result (λ found. sites_of found.items ≡ body_sites (term_of body.now)) }
{
    let mut found = Vec::new(alloc);
    push_sites(&mut found, place(body), body)?;
    Ok(found)
}
