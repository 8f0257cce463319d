//! Maps between contexts.
ghost use Rattle.std.specs.Prelude.{◌≤◌, ◌<◌, length};

use base_poly::degrees;
use index_shift::{
    Entry, Local, MapFault, drop_var, empty_part, share_map, shift_list, shift_option, shift_tree,
    split_pair,
};
use raml_syntax::Ty;
use std::alloc::Global;
use std::process::Abort;
use std::test::Fail;
use tests_support::types::{context, joined_lists, lists};

mod changes;
mod openings;

/// The degree and the entry of a line of a table.
fn read(line: &str) -> Option<(u8, Entry)> {
    let mut words = line.split_whitespace();
    let d = words.next()?.parse::<u8>().ok()?;
    let from = words.next()?.parse::<u32>().ok()?;
    let to = words.next()?.parse::<u32>().ok()?;
    let times = words.next()?.parse::<u64>().ok()?;
    Some((d, Entry { from, to, times }))
}

/// Whether the entries are those of the table's lines of this degree, in any order.
fn check(rt: &impl Abort, d: u8, found: &[Entry], table: &str) -> Result<(), Fail> {
    let mut left = found.len();
    for line in table.lines() {
        let (degree, entry) = read(line).ok_or("a line")?;
        if degree == d {
            assert!(rt; found.contains(&entry), "{line}");
            left = left.wrapping_sub(1);
        }
    }
    assert_eq!(rt; left, 0);
    Ok(())
}

/// What becomes of a variable.
#[derive(Clone, Copy)]
enum Change {
    /// Its parts stand for it.
    Opens,
    /// It is empty and leaves.
    Leaves,
    /// It leaves, whatever it is.
    Drops,
    /// It stands twice before.
    Shares,
}

/// The entries of the map by the variable's type, none where it has no parts.
fn opened(alloc: Global, types: &[Ty], at: usize, d: u8) -> Result<Vec<Entry>, MapFault>
    requires there { at < length types.now }
    requires low { d ≤ 4 }
{
    match &types[at] {
        Ty::Int | Ty::Bool => Ok(Vec::new(alloc)),
        Ty::Pair(..) => split_pair(alloc, types, at, d),
        Ty::List(_) => shift_list(alloc, types, at, d),
        Ty::Tree(_) => shift_tree(alloc, types, at, d),
        Ty::Opt(_) => shift_option(alloc, types, at, d),
    }
}

/// The entries of `empty_part`, none where the variable is never empty.
fn emptied(alloc: Global, types: &[Ty], at: usize, d: u8) -> Result<Vec<Entry>, MapFault>
    requires there { at < length types.now }
    requires low { d ≤ 4 }
{
    match &types[at] {
        Ty::Int | Ty::Bool | Ty::Pair(..) => Ok(Vec::new(alloc)),
        Ty::List(_) | Ty::Tree(_) | Ty::Opt(_) => empty_part(alloc, types, at, d),
    }
}

fn changed(
    alloc: Global,
    change: Change,
    types: &[Ty],
    at: usize,
    d: u8,
) -> Result<Vec<Entry>, MapFault>
    requires there { at < length types.now }
    requires low { d ≤ 4 }
{
    match change {
        Change::Opens => opened(alloc, types, at, d),
        Change::Leaves => emptied(alloc, types, at, d),
        Change::Drops => drop_var(alloc, types, at, d),
        Change::Shares => share_map(alloc, types, at, d),
    }
}

/// Whether the map has the table's entries at the degrees from 1 to 3.
fn check_map(
    rt: &impl Abort,
    alloc: Global,
    change: Change,
    types: &[Ty],
    at: usize,
    table: &str,
) -> Result<(), Fail> {
    assert!(rt; at < types.len());
    for d in 1..4 {
        check(rt, d, &changed(alloc, change, types, at, d)?, table)?;
    }
    Ok(())
}

/// What becomes of a variable of the type, whatever stands beside it.
fn alone(alloc: Global, change: Change, ty: &Ty, d: u8) -> Result<Local, MapFault>
    requires low { d ≤ 4 }
{
    match change {
        Change::Opens => Local::opening(alloc, ty, d),
        Change::Leaves | Change::Drops => Local::leaving(alloc, ty, d),
        Change::Shares => Local::sharing(alloc, ty, d),
    }
}

/// The entries of the same map, made of that and of the degrees of the tuples before the variable and
/// behind it.
fn lifted(
    alloc: Global,
    change: Change,
    types: &[Ty],
    at: usize,
    d: u8,
) -> Result<Vec<Entry>, MapFault>
    requires there { at < length types.now }
    requires low { d ≤ 4 }
{
    let local = alone(alloc, change, &types[at], d)?;
    let before = degrees(alloc, &types[..at], d, 2000)?;
    let behind = degrees(alloc, &types[at + 1..], d, 2000)?;
    local.map(alloc, &before, &behind)
}

/// Whether it has the table's entries at the degrees from 1 to 3, too.
fn check_lifted(
    rt: &impl Abort,
    alloc: Global,
    change: Change,
    types: &[Ty],
    at: usize,
    table: &str,
) -> Result<(), Fail> {
    assert!(rt; at < types.len());
    for d in 1..4 {
        check(rt, d, &lifted(alloc, change, types, at, d)?, table)?;
    }
    Ok(())
}

/// Types, the place of a variable, and the entries of the map.
const OPENED: [(&str, usize, &str); 10] = [
    ("int list", 0, openings::LIST_ONE),
    ("int list list int list", 0, openings::LIST_TWO),
    ("int int list int pair list", 1, openings::LIST_THREE),
    ("int option list", 0, openings::LIST_FOUR),
    ("int tree", 0, openings::TREE_ONE),
    ("int list int list tree", 1, openings::TREE_TWO),
    ("int list int tree pair", 0, openings::PAIR_ONE),
    (
        "int list int int list int list pair pair",
        1,
        openings::PAIR_TWO,
    ),
    ("int list option", 0, openings::OPTION_ONE),
    ("int list int list int pair option", 1, openings::OPTION_TWO),
];

#[test]
fn variables_are_taken_apart(rt: HostRuntime) -> Result<(), Fail> {
    for (words, at, table) in &OPENED {
        let types = context(rt.alloc(), words)?;
        check_map(&rt, rt.alloc(), Change::Opens, &types, *at, table)?;
    }
    Ok(())
}

/// What becomes of a variable, types, its place, and the entries of the map.
const CHANGED: [(Change, &str, usize, &str); 9] = [
    (Change::Leaves, "int list int list", 0, changes::EMPTY_ONE),
    (
        Change::Leaves,
        "int list tree int list",
        0,
        changes::EMPTY_TWO,
    ),
    (
        Change::Leaves,
        "int list option int list",
        0,
        changes::EMPTY_ONE,
    ),
    (
        Change::Drops,
        "int list int list list",
        1,
        changes::DROP_ONE,
    ),
    (Change::Drops, "int option int option", 1, changes::DROP_TWO),
    (Change::Shares, "int list", 0, changes::SHARE_ONE),
    (Change::Shares, "int int list list", 1, changes::SHARE_TWO),
    (
        Change::Shares,
        "int list int list pair int list",
        0,
        changes::SHARE_THREE,
    ),
    (Change::Shares, "int list option", 0, changes::SHARE_FOUR),
];

#[test]
fn variables_leave_or_are_shared(rt: HostRuntime) -> Result<(), Fail> {
    for (change, words, at, table) in &CHANGED {
        let types = context(rt.alloc(), words)?;
        check_map(&rt, rt.alloc(), *change, &types, *at, table)?;
    }
    Ok(())
}

#[test]
fn maps_are_made_of_the_variable_alone(rt: HostRuntime) -> Result<(), Fail> {
    for (words, at, table) in &OPENED {
        let types = context(rt.alloc(), words)?;
        check_lifted(&rt, rt.alloc(), Change::Opens, &types, *at, table)?;
    }
    for (change, words, at, table) in &CHANGED {
        let types = context(rt.alloc(), words)?;
        check_lifted(&rt, rt.alloc(), *change, &types, *at, table)?;
    }
    Ok(())
}

/// Whether so many lists, paired, are too many for a variable alone.
fn are_too_many(alloc: Global, change: Change, count: usize) -> Result<bool, Fail> {
    let ty = joined_lists(alloc, count)?;
    match alone(alloc, change, &ty, 4) {
        Ok(_) => Ok(false),
        Err(fault) => Ok(fault == MapFault::TooMany),
    }
}

#[test]
fn a_variable_alone_may_be_too_large(rt: HostRuntime) -> Result<(), Fail> {
    // 12 lists have 1820 indices of degree at most 4, and 13 have 2380; what is shared stands twice
    for (change, most) in [
        (Change::Opens, 12),
        (Change::Leaves, 12),
        (Change::Shares, 6),
    ] {
        assert!(rt; !are_too_many(rt.alloc(), change, most)?, "{most} lists");
        assert!(rt;
            are_too_many(rt.alloc(), change, most + 1)?,
            "{most} lists and one"
        );
    }
    Ok(())
}

/// How many entries the map of degree 4 at the fourth of these lists has, or the fault.
fn entries_of(
    alloc: Global,
    change: Change,
    count: usize,
) -> Result<Result<usize, MapFault>, Fail> {
    let types = lists(alloc, count)?;
    if types.len() <= 3 {
        return Err(Fail::new("too few lists"));
    }
    match changed(alloc, change, &types, 3, 4) {
        Ok(entries) => Ok(Ok(entries.len())),
        Err(fault) => Ok(Err(fault)),
    }
}

#[test]
fn either_context_may_be_too_large(rt: HostRuntime) -> Result<(), Fail> {
    // 12 lists have 1820 indices of degree at most 4, and 13 have 2380.
    for (change, count, want) in [
        (Change::Drops, 12, Ok(1365)),
        (Change::Drops, 13, Err(MapFault::TooMany)),
        (Change::Shares, 12, Err(MapFault::TooMany)),
    ] {
        let found = entries_of(rt.alloc(), change, count)?;
        assert!(rt; found == want, "of {count} lists");
    }
    Ok(())
}
