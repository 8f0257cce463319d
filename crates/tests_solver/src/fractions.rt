//! Fractions: examples near the edges, and a table of 56 lines that another program computed.
use self::lines::LINES;
use frac128::Frac;
use std::alloc::Global;
use std::cmp::Ordering;
use std::fmt::Write;
use std::process::Abort;
use std::test::Fail;

mod lines;

/// The fraction of a text as `-2/7`.
fn read(text: &str) -> Option<Frac> {
    let (num, den) = text.split_once('/')?;
    let num = Frac::whole(num.parse::<i128>().ok()?)?;
    let den = Frac::whole(den.parse::<i128>().ok()?)?;
    if den.num() == 0 { None } else { num.div(&den) }
}

fn sign_of(order: Ordering) -> &'static str {
    match order {
        Ordering::Less => "<",
        Ordering::Equal => "=",
        Ordering::Greater => ">",
    }
}

/// Writes an answer as the table has it, and a space.
fn write_answer(out: &mut String, answer: Option<Frac>) -> Result<(), Fail> {
    match answer {
        None => out.push_str("- ")?,
        Some(value) => {
            let num = value.num();
            let den = value.den();
            write!(out, "{num}/{den} ")?;
        }
    }
    Ok(())
}

/// Writes `a*b a/b a+b a-b order`, where `-` stands for None and `x` for a division by 0.
fn write_answers(out: &mut String, a: &Frac, b: &Frac) -> Result<(), Fail> {
    write_answer(out, a.mul(b))?;
    if b.num() == 0 {
        out.push_str("x ")?;
    } else {
        write_answer(out, a.div(b))?;
    }
    write_answer(out, a.add(b))?;
    write_answer(out, a.sub(b))?;
    out.push_str(sign_of(a.cmp(b)))?;
    Ok(())
}

/// The answers to the two fractions with which a line begins.
fn answers(alloc: Global, a: &str, b: &str) -> Result<String, Fail> {
    let a = read(a).ok_or("a")?;
    let b = read(b).ok_or("b")?;
    let mut out = String::new(alloc);
    write_answers(&mut out, &a, &b)?;
    Ok(out)
}

/// Compares a line `a b a*b a/b a+b a-b order`.
fn check_line(rt: &impl Abort, alloc: Global, line: &str) -> Result<(), Fail> {
    let (a, rest) = line.split_once(' ').ok_or("a")?;
    let (b, want) = rest.split_once(' ').ok_or("b")?;
    let found = answers(alloc, a, b)?;
    assert_eq!(rt; found.as_str(), want, "of {line}");
    Ok(())
}

#[test]
fn table(rt: HostRuntime) -> Result<(), Fail> {
    for line in LINES.lines() {
        check_line(&rt, rt.alloc(), line)?;
    }
    Ok(())
}

#[test]
fn edges(rt: HostRuntime) {
    assert_eq!(rt; Frac::whole(i128::MIN), None);
    assert_eq!(rt; read("4/-6"), read("-2/3"));
    assert_eq!(rt; read("-2/3").map(|frac| frac.neg()), read("2/3"));
    assert!(rt; Frac::zero() < Frac::one());
}

/// The text of a fraction.
fn text_of(alloc: Global, value: &str) -> Result<String, Fail> {
    Ok(read(value).ok_or("no fraction")?.to_string(alloc)?)
}

#[test]
fn texts(rt: HostRuntime) -> Result<(), Fail> {
    for (value, want) in &[
        ("6/4", "3/2"),
        ("-7/1", "-7"),
        ("-7/2", "-7/2"),
        ("0/1", "0"),
    ] {
        assert_eq!(rt; text_of(rt.alloc(), value)?.as_str(), *want);
    }
    Ok(())
}
