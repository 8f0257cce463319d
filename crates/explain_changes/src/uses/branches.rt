// Sites below names that are bound.
ghost use Rattle.std.specs.Prelude.{OnOk};
ghost use Rattle.raml_syntax.specs.Read.{program_of, term_of, bound_of};
ghost use Rattle.raml_syntax.specs.Tree as t;
ghost use Rattle.explain_changes.specs.Scope as s;
ghost use Rattle.explain_changes.specs.Sites as p;
ghost use Rattle.explain_changes.specs.Read.{built_of, scope_in, Adds, sites_at};

use crate::built::Built;
use crate::kind::{element, first, is_known_sized, kind, second};
use crate::site::Site;
use crate::uses::{Place, walk, walk_subject};
use raml_syntax::{Binder, Expr};
use std::alloc::AllocError;

/// Adds the sites of `let x = bound in rest`.
#[cycle(walk)]
pub fn walk_let<'s, 'a>(
    place: Place<'s, 'a>,
    x: &'a Binder,
    bound: &'a Expr,
    rest: &'a Expr,
    found: &mut Vec<Site<'a>>,
) -> Result<(), AllocError>
    ensures { OnOk result (Adds found.old.items found.new.items
        (sites_at place.entry (t.Let 0 (bound_of x.now) (term_of bound.now) (term_of rest.now)))) }
{
    walk(place, bound, found)?;
    let ty = kind(place.program, place.scope, bound);
    let scope = place.scope.with_name(&x.name, ty);
    let inner = Place {
        scope: &scope,
        ..place
    };
    walk(inner, rest, found)
}

/// Adds the sites of `let (x, y) = subject in rest`.
#[cycle(walk)]
pub fn walk_let_pair<'s, 'a>(
    place: Place<'s, 'a>,
    x: &'a Binder,
    y: &'a Binder,
    subject: &'a Expr,
    rest: &'a Expr,
    found: &mut Vec<Site<'a>>,
) -> Result<(), AllocError>
    ensures { OnOk result (Adds found.old.items found.new.items
        (sites_at place.entry (t.LetPair 0 (bound_of x.now) (bound_of y.now) (term_of subject.now) (term_of rest.now)))) }
{
    walk_subject(place, subject, found)?;
    let ty = kind(place.program, place.scope, subject);
    let one = place.scope.with_name(&x.name, first(ty));
    let both = one.with_name(&y.name, second(ty));
    if is_known_sized(ty) {
        let scope = both.with_apart(subject, Built::Pair(&x.name, &y.name));
        let inner = Place {
            scope: &scope,
            ..place
        };
        walk(inner, rest, found)
    } else {
        let inner = Place {
            scope: &both,
            ..place
        };
        walk(inner, rest, found)
    }
}

/// Adds the sites of an empty branch, where the subject, if it is a variable, is built so.
#[cycle(walk)]
fn walk_empty<'s, 'a>(
    place: Place<'s, 'a>,
    subject: &'a Expr,
    built: Built<'a>,
    e: &'a Expr,
    found: &mut Vec<Site<'a>>,
) -> Result<(), AllocError>
    ensures { OnOk result (Adds found.old.items found.new.items (p.sites (program_of place.entry.program.now)
        place.entry.function.now
        (s.in_empty (scope_in place.entry.scope.now) (term_of subject.now) (built_of built.entry)) (term_of e.now))) }
{
    let scope = place.scope.with_apart(subject, built);
    let inner = Place {
        scope: &scope,
        ..place
    };
    walk(inner, e, found)
}

/// Adds the sites of a match of a list.
#[cycle(walk)]
pub fn walk_match_list<'s, 'a>(
    place: Place<'s, 'a>,
    subject: &'a Expr,
    empty: &'a Expr,
    x: &'a Binder,
    y: &'a Binder,
    rest: &'a Expr,
    found: &mut Vec<Site<'a>>,
) -> Result<(), AllocError>
    ensures { OnOk result (Adds found.old.items found.new.items (sites_at place.entry
        (t.MatchList 0 (term_of subject.now) (term_of empty.now) (bound_of x.now) (bound_of y.now) (term_of rest.now)))) }
{
    walk_subject(place, subject, found)?;
    walk_empty(place, subject, Built::Nil, empty, found)?;
    let ty = kind(place.program, place.scope, subject);
    let one = place.scope.with_name(&x.name, element(ty));
    let both = one.with_name(&y.name, ty);
    let scope = both.with_apart(subject, Built::Cons(&x.name, &y.name));
    let inner = Place {
        scope: &scope,
        ..place
    };
    walk(inner, rest, found)
}

/// Adds the sites of a match of a tree.
#[cycle(walk)]
pub fn walk_match_tree<'s, 'a>(
    place: Place<'s, 'a>,
    subject: &'a Expr,
    empty: &'a Expr,
    x: &'a Binder,
    y: &'a Binder,
    z: &'a Binder,
    rest: &'a Expr,
    found: &mut Vec<Site<'a>>,
) -> Result<(), AllocError>
    ensures { OnOk result (Adds found.old.items found.new.items (sites_at place.entry
        (t.MatchTree 0 (term_of subject.now) (term_of empty.now) (bound_of x.now) (bound_of y.now) (bound_of z.now) (term_of rest.now)))) }
{
    walk_subject(place, subject, found)?;
    walk_empty(place, subject, Built::Leaf, empty, found)?;
    let ty = kind(place.program, place.scope, subject);
    let one = place.scope.with_name(&x.name, element(ty));
    let two = one.with_name(&y.name, ty);
    let all = two.with_name(&z.name, ty);
    let scope = all.with_apart(subject, Built::Node(&x.name, &y.name, &z.name));
    let inner = Place {
        scope: &scope,
        ..place
    };
    walk(inner, rest, found)
}

/// Adds the sites of a match of an option.
#[cycle(walk)]
pub fn walk_match_option<'s, 'a>(
    place: Place<'s, 'a>,
    subject: &'a Expr,
    empty: &'a Expr,
    x: &'a Binder,
    rest: &'a Expr,
    found: &mut Vec<Site<'a>>,
) -> Result<(), AllocError>
    ensures { OnOk result (Adds found.old.items found.new.items (sites_at place.entry
        (t.MatchOption 0 (term_of subject.now) (term_of empty.now) (bound_of x.now) (term_of rest.now)))) }
{
    walk_subject(place, subject, found)?;
    walk_empty(place, subject, Built::Nothing, empty, found)?;
    let ty = kind(place.program, place.scope, subject);
    let content = place.scope.with_name(&x.name, element(ty));
    let scope = content.with_apart(subject, Built::Just(&x.name));
    let inner = Place {
        scope: &scope,
        ..place
    };
    walk(inner, rest, found)
}
