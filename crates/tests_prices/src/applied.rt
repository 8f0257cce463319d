// Programs with prices written out as ticks. Trees were made by hand or by a parser of its own.
use crate::shown::push_program;
use price_file::{Prices, apply, read};
use raml_parse::parse;
use simple_types::{Typed, check};
use std::alloc::{AllocError, Global};
use std::process::Abort;
use std::test::Fail;

// The typed program of a source.
fn typed(alloc: Global, source: &str) -> Result<Typed, Fail> {
    if source.len() > 1_048_576 {
        return Err(Fail::from("too long"));
    }
    let Ok(program) = parse(alloc, source.as_bytes()) else {
        return Err(Fail::from("no program"));
    };
    match check(alloc, program) {
        Ok(typed) => Ok(typed),
        Err(_) => Err(Fail::from("no typed program")),
    }
}

// The prices of a table.
fn prices(table: &str) -> Result<Prices, Fail> {
    if table.len() > 1_048_576 {
        return Err(Fail::from("too long"));
    }
    match read(table.as_bytes()) {
        Ok(prices) => Ok(prices),
        Err(_) => Err(Fail::from("no prices")),
    }
}

fn shown(alloc: Global, typed: &Typed) -> Result<String, AllocError> {
    let mut out = String::new(alloc);
    push_program(&mut out, typed.program())?;
    Ok(out)
}

// The bodies of the program with the prices of the table written out.
fn applied(alloc: Global, source: &str, table: &str) -> Result<String, Fail> {
    let made = apply(alloc, &typed(alloc, source)?, &prices(table)?)?;
    Ok(shown(alloc, &made)?)
}

// A source, a table, and the bodies with its prices: each construct, beside others that are alike.
const CONSTRUCTS: [(&str, &str, &str); 22] = [
    (
        "fun f (x : int) : int = x + 1",
        "number 2",
        " (24:+ 24:x (28:tick 2 28:1))",
    ),
    (
        "fun f (x : int) : bool * int = (false, 0)",
        "truth 2",
        " (31:pair (32:tick 2 32:false) 39:0)",
    ),
    (
        "fun f (x : int) : int * int list = (x, nil)",
        "var 2",
        " (35:pair (36:tick 2 36:x) 39:nil)",
    ),
    (
        "fun f (x : int) : int list * int tree = ((nil : int list), (leaf : int tree))",
        "nil 2",
        " (40:pair (41:typed (42:tick 2 42:nil)) (59:typed 60:leaf))",
    ),
    (
        "fun f (x : int) : int tree * int list = ((leaf : int tree), (nil : int list))",
        "leaf 2",
        " (40:pair (41:typed (42:tick 2 42:leaf)) (60:typed 61:nil))",
    ),
    (
        "fun f (x : int) : int option * int list = ((none : int option), (nil : int list))",
        "none 2",
        " (42:pair (43:typed (44:tick 2 44:none)) (64:typed 65:nil))",
    ),
    (
        "fun f (x : int) : int = (x + 1 - 2) * x div 3 mod 4",
        "arith 2",
        " (24:tick 2 (24:mod (24:tick 2 (24:div (24:tick 2 (24:* (25:tick 2 (25:- (25:tick 2 (25:+ 25:x 29:1)) 33:2)) 38:x)) 44:3)) 50:4))",
    ),
    (
        "fun f (x : int) : bool = x + 1 < 2",
        "arith 2",
        " (25:< (25:tick 2 (25:+ 25:x 29:1)) 33:2)",
    ),
    (
        "fun f (x : int) : bool = if x = 0 then x < 1 else x - 1 <= 2",
        "compare 2",
        " (25:if (28:tick 2 (28:= 28:x 32:0)) (39:tick 2 (39:< 39:x 43:1)) (50:tick 2 (50:<= (50:- 50:x 54:1) 59:2)))",
    ),
    (
        "fun f (x : int) : bool = not not (x < 1)",
        "not 2",
        " (25:tick 2 (25:not (29:tick 2 (29:not (34:< 34:x 38:1)))))",
    ),
    (
        "fun f (x : int) : int * int list = (x, x :: nil)",
        "pair 2",
        " (35:tick 2 (35:pair 36:x (39:cons 39:x 44:nil)))",
    ),
    (
        "fun f (x : int) : int list = x :: x :: nil",
        "cons 2",
        " (29:tick 2 (29:cons 29:x (34:tick 2 (34:cons 34:x 39:nil))))",
    ),
    (
        "fun f (x : int) : int tree = node(x, leaf, node(1, leaf, leaf))",
        "node 2",
        " (29:tick 2 (29:node 34:x 37:leaf (43:tick 2 (43:node 48:1 51:leaf 57:leaf))))",
    ),
    (
        "fun f (x : int) : int option option = some(some(x))",
        "some 2",
        " (38:tick 2 (38:some (43:tick 2 (43:some 48:x))))",
    ),
    (
        "fun f (x : int) : int = f(f(x))",
        "call 2",
        " (24:tick 2 (24:call f (26:tick 2 (26:call f 28:x))))",
    ),
    (
        "fun f (x : int) : int = let a = x in let (b, c) = (a, a) in b",
        "let 2",
        " (24:tick 2 (24:let a 32:x (37:tick 2 (37:let b c (50:pair 51:a 54:a) 60:b))))",
    ),
    (
        "fun f (x : bool) : bool = if x then not x else x",
        "if 2",
        " (26:tick 2 (26:if 29:x (36:not 40:x) 47:x))",
    ),
    (
        "fun f (x : int list) : int = match x with nil -> 0 | h :: t -> h",
        "match 2",
        " (29:tick 2 (29:match h t 35:x 49:0 63:h))",
    ),
    (
        "fun f (x : int tree) : int = match x with leaf -> 0 | node(a, l, r) -> a",
        "match 2",
        " (29:tick 2 (29:match a l r 35:x 50:0 71:a))",
    ),
    (
        "fun f (x : int option) : int = match x with none -> 0 | some(a) -> a",
        "match 2",
        " (31:tick 2 (31:match a 37:x 52:0 67:a))",
    ),
    (
        "fun f (x : int) : int = tick 3 in x",
        "tick 2",
        " (24:tick 2 (24:tick 3 34:x))",
    ),
    (
        "fun f (x : int) : int = tick 0 in tick 1000000 in x",
        "tick 2",
        " (24:tick 2 (24:tick 0 (34:tick 2 (34:tick 1000000 50:x))))",
    ),
];

fn compare(rt: &impl Abort, alloc: Global, rows: &[(&str, &str, &str)]) -> Result<(), Fail> {
    for (source, table, want) in rows {
        let found = applied(alloc, *source, *table)?;
        assert_eq!(rt; found.as_str(), *want, "at {source}");
    }
    Ok(())
}

#[test]
fn each_construct_is_charged(rt: HostRuntime) -> Result<(), Fail> {
    compare(&rt, rt.alloc(), &CONSTRUCTS)
}

const APPEND: &str = "\
fun append (x : int list, y : int list) : int list =
  match x with nil -> y | h :: t -> h :: append(t, y)";

const APPEND_CHARGED: &str =
    " (55:match h t 61:x 75:y (89:tick 1 (89:cons 89:h (94:tick 2 (94:call append 101:t 104:y)))))";

#[test]
fn prices_stand_before_nodes(rt: HostRuntime) -> Result<(), Fail> {
    let found = applied(rt.alloc(), APPEND, "cons 1\ncall 2\n")?;
    assert_eq!(rt; found.as_str(), APPEND_CHARGED);
    Ok(())
}

// A program in which each kind of form stands. It has 52 nodes, of which one is a type annotation.
const EACH_FORM: &str = "\
fun append (x : int list, y : int list) : int list =
  match x with nil -> y | h :: t -> h :: append(t, y)
fun every (x : int, t : int tree, o : int option) : (int * bool) * int tree =
  let a = x + 1 in
  let (p, q) = (a, not (x < 2)) in
  match t with
    leaf -> if q then ((p, true), node(a, leaf, t)) else ((0, q), t)
  | node(e, l, r) ->
      match o with
        none -> ((e, false), (l : int tree))
      | some(v) -> tick 3 in every(v, r, some(v * e))";

// A price of 1 for each construct.
const ONES: &str = "\
number 1
truth 1
var 1
nil 1
leaf 1
none 1
arith 1
compare 1
not 1
pair 1
cons 1
node 1
some 1
call 1
let 1
if 1
match 1
tick 1";

// Each node has a colon behind its place.
fn count(text: &str) -> usize {
    text.as_bytes().iter().filter(|byte| **byte == b':').count()
}

#[test]
fn nodes_are_twice_as_many_at_most(rt: HostRuntime) -> Result<(), Fail> {
    for (table, want) in [("", 52), ("call 0", 52), (ONES, 103)] {
        let found = applied(rt.alloc(), EACH_FORM, table)?;
        assert_eq!(rt; count(found.as_str()), want);
    }
    Ok(())
}

#[test]
fn annotations_are_not_charged(rt: HostRuntime) -> Result<(), Fail> {
    let found = applied(
        rt.alloc(),
        "fun f (x : int) : int = ((x : int) : int)",
        ONES,
    )?;
    assert_eq!(rt; found.as_str(), " (24:typed (25:typed (26:tick 1 26:x)))");
    Ok(())
}

#[test]
fn a_table_without_lines_changes_nothing(rt: HostRuntime) -> Result<(), Fail> {
    let alloc = rt.alloc();
    let found = applied(alloc, EACH_FORM, "")?;
    let want = shown(alloc, &typed(alloc, EACH_FORM)?)?;
    assert_eq!(rt; found.as_str(), want.as_str());
    Ok(())
}
