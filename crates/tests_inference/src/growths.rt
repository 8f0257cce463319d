// What plans make of the numbers that they are walked with, worked out by hand.
use index_shift::Entry;
use rules_walk::{Called, Part, Parts, Plan, Step, capped_product, growth};
use std::alloc::{AllocError, Global};
use std::rc::Rc;
use std::test::Fail;

// A map that takes its first entry twice, and its second once.
fn map(alloc: Global) -> Result<Vec<Entry>, AllocError> {
    let mut entries = Vec::with_capacity(alloc, 2)?;
    entries.push(Entry {
        from: 0,
        to: 0,
        times: 2,
    })?;
    entries.push(Entry {
        from: 1,
        to: 0,
        times: 1,
    })?;
    Ok(entries)
}

fn step(alloc: Global) -> Result<Step, AllocError> {
    Ok(Step {
        size: 1,
        entries: map(alloc)?,
    })
}

// A form of one node: 1 + 1 + (0 + 1).
fn ends(alloc: Global) -> Plan {
    Plan::Ends(1, 0, Vec::new(alloc))
}

fn boxed(alloc: Global) -> Result<Box<Plan>, AllocError> {
    Ok(Box::new(alloc, ends(alloc))?)
}

fn maps(alloc: Global) -> Result<Vec<Vec<Entry>>, AllocError> {
    let mut maps = Vec::new(alloc);
    maps.push(map(alloc)?)?;
    Ok(maps)
}

fn call(alloc: Global) -> Result<Plan, AllocError> {
    Ok(Plan::Calls(
        1,
        Called {
            function: 0,
            own: None,
            args: 1,
            result: 1,
            args_from: maps(alloc)?,
            result_from: maps(alloc)?,
        },
    ))
}

fn parts(alloc: Global) -> Result<Option<Parts>, AllocError> {
    let mut parts = Vec::new(alloc);
    parts.push(Part {
        there: step(alloc)?,
        size: 1,
        joins: map(alloc)?,
        degree: 0,
    })?;
    Ok(Parts::new(parts))
}

fn bound(alloc: Global) -> Result<Option<Plan>, AllocError> {
    let mut firsts = Vec::new(alloc);
    firsts.push(Rc::new(alloc, ends(alloc))?)?;
    match parts(alloc)? {
        Some(parts) => Ok(Some(Plan::Lets(1, parts, firsts, 1, boxed(alloc)?))),
        None => Ok(None),
    }
}

#[test]
fn plans_have_their_growth(rt: HostRuntime) -> Result<(), Fail> {
    let alloc = rt.alloc();
    assert_eq!(rt; growth(alloc, &ends(alloc), 5), Some(3));
    let pays = Plan::Pays(1, 2, boxed(alloc)?);
    assert_eq!(rt; growth(alloc, &pays, 5), Some(3 * 4));
    let moves = Plan::Moves(1, step(alloc)?, boxed(alloc)?);
    assert_eq!(rt; growth(alloc, &moves, 5), Some(3 * 4 * 2));
    let shares = Plan::Shares(2, 1, step(alloc)?, boxed(alloc)?);
    assert_eq!(rt; growth(alloc, &shares, 5), Some(3 + (3 + 3)));
    Ok(())
}

#[test]
fn forks_calls_and_lets_have_theirs(rt: HostRuntime) -> Result<(), Fail> {
    let alloc = rt.alloc();
    let forks = Plan::Forks(0, step(alloc)?, boxed(alloc)?, step(alloc)?, boxed(alloc)?);
    assert_eq!(rt; growth(alloc, &forks, 5), Some(3 * 4 + 3 * 4));
    assert_eq!(rt; growth(alloc, &call(alloc)?, 5), Some(2 + (2 + 6 * 5)));
    let found = match bound(alloc)? {
        Some(lets) => growth(alloc, &lets, 5),
        None => None,
    };
    assert_eq!(rt; found, Some(13 * 2 + 3 * 4));
    Ok(())
}

#[test]
fn what_leaves_128_bits_has_none(rt: HostRuntime) -> Result<(), Fail> {
    let alloc = rt.alloc();
    assert_eq!(rt; growth(alloc, &call(alloc)?, u128::MAX / 6 + 1), None);
    assert_eq!(rt; capped_product(1 << 64, 1 << 64), u128::MAX);
    assert_eq!(rt; capped_product(1 << 63, 2), 1 << 64);
    Ok(())
}
