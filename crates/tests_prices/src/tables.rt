// Tables of prices, with what they list, or their first fault.
use price_file::{Construct, PriceFault, Prices, fault_line, read};
use std::alloc::{AllocError, Global};
use std::fmt::Write;
use std::process::Abort;
use std::test::Fail;

// What is listed, in the order of the constructs: `cons 1, call 2`.
fn push_listed(out: &mut String, prices: &Prices) -> Result<(), AllocError> {
    for construct in &Construct::ALL {
        if prices.is_listed(*construct) {
            let comma = if out.is_empty() { "" } else { ", " };
            write!(
                out,
                "{comma}{} {}",
                construct.name(),
                prices.price(*construct)
            )?;
        }
    }
    Ok(())
}

// What bytes list, or the line of their first fault.
fn told(alloc: Global, bytes: &[u8]) -> Result<String, Fail> {
    if bytes.len() > 1_048_576 {
        return Err(Fail::from("too long"));
    }
    match read(bytes) {
        Ok(prices) => {
            let mut out = String::new(alloc);
            push_listed(&mut out, &prices)?;
            Ok(out)
        }
        Err(fault) => Ok(fault_line(alloc, fault)?),
    }
}

// Compares what is told of each table with what is wanted.
fn compare(rt: &impl Abort, alloc: Global, tables: &[(&[u8], &str)]) -> Result<(), Fail> {
    for (bytes, want) in tables {
        let found = told(alloc, *bytes)?;
        assert_eq!(rt; found.as_str(), *want, "at {bytes:?}");
    }
    Ok(())
}

// Tables that are none of the faulty ones, with what they list.
const TABLES: [(&[u8], &str); 10] = [
    (b"", ""),
    (b"cons 1\ncall 2\n", "cons 1, call 2"),
    (b"cons 1\ncall 2", "cons 1, call 2"),
    (b"cons 0\ncall 0\n", "cons 0, call 0"),
    (b"cons 0000001\ncall 0000000\n", "cons 1, call 0"),
    (b"call 1000000\n", "call 1000000"),
    (b"tick 5\n", "tick 5"),
    (b"match 9\n", "match 9"),
    (b"let 4\n", "let 4"),
    (b"number 1000000\n", "number 1000000"),
];

#[test]
fn tables_list_prices(rt: HostRuntime) -> Result<(), Fail> {
    compare(&rt, rt.alloc(), &TABLES)
}

// Tables whose first line sets nothing.
const FIRST_LINES: [&[u8]; 31] = [
    b"call 1000001\n",
    b"call 9999999\n",
    b"call 00000001\n",
    b"call 10000000\n",
    b"call \n",
    b"call\n",
    b"call  1\n",
    b" call 1\n",
    b"call 1 \n",
    b"call\t1\n",
    b"call=1\n",
    b"call +1\n",
    b"call -1\n",
    b"call 1.0\n",
    b"call 0x1\n",
    b"Call 1\n",
    b"loop 1\n",
    b"ticks 1\n",
    b"fun 1\n",
    b"option 1\n",
    b"+ 1\n",
    b"\n",
    b"call 1\r\n",
    b"call 1 (* c *)\n",
    b"call 1 2\n",
    b"\xef\xbb\xbfcall 1\n",
    b"call \xd9\xa1\n",
    b"call 1\x00\n",
    b" \n",
    b"call 1;\n",
    b"cons\ncall 1\ncall 1\n",
];

#[test]
fn a_first_line_that_sets_nothing_is_told(rt: HostRuntime) -> Result<(), Fail> {
    for bytes in FIRST_LINES {
        let found = told(rt.alloc(), bytes)?;
        assert_eq!(rt;
            found.as_str(),
            "raml: prices: line 1: shape\n",
            "at {bytes:?}"
        );
    }
    Ok(())
}

// Tables with a fault behind their first line, and bytes that are no text.
const OTHERS: [(&[u8], &str); 10] = [
    (b"call 1\n\n", "raml: prices: line 2: shape\n"),
    (b"cons 1\ncall 2x\n", "raml: prices: line 2: shape\n"),
    (b"cons 1\ncons 1000001\n", "raml: prices: line 2: shape\n"),
    (b"cons 1\ncons 1\n", "raml: prices: line 2: twice\n"),
    (b"cons 0\ncall 3\ncons 2", "raml: prices: line 3: twice\n"),
    (
        b"cons 1\nlet 1\nmatch 2\nlet 0\ncons 5\n",
        "raml: prices: line 4: twice\n",
    ),
    (b"cons 1\ncons 2\ncall\n", "raml: prices: line 2: twice\n"),
    (b"cons\n\xff\n", "raml: prices: not utf-8 at 5\n"),
    (b"cons 1\n\xc3", "raml: prices: not utf-8 at 7\n"),
    (b"\x80", "raml: prices: not utf-8 at 0\n"),
];

#[test]
fn other_faults_are_told(rt: HostRuntime) -> Result<(), Fail> {
    compare(&rt, rt.alloc(), &OTHERS)
}

// A price of each construct, in an order of its own.
const ALL: &str = "\
tick 18
match 17
if 16
let 15
call 14
some 13
node 12
cons 11
pair 10
not 9
compare 8
arith 7
none 6
leaf 5
nil 4
var 3
truth 2
number 1";

const ALL_LISTED: &str =
    "number 1, truth 2, var 3, nil 4, leaf 5, none 6, arith 7, compare 8, not 9, pair 10, \
cons 11, node 12, some 13, call 14, let 15, if 16, match 17, tick 18";

#[test]
fn each_construct_has_its_price(rt: HostRuntime) -> Result<(), Fail> {
    let found = told(rt.alloc(), ALL.as_bytes())?;
    assert_eq!(rt; found.as_str(), ALL_LISTED);
    Ok(())
}

#[test]
fn what_is_not_listed_costs_nothing(rt: HostRuntime) -> Result<(), Fail> {
    let Ok(prices) = read(b"cons 1\ncall 2\n") else {
        return Err(Fail::from("no prices"));
    };
    for construct in &Construct::ALL {
        let want = match construct {
            Construct::Cons => 1,
            Construct::Call => 2,
            _ => 0,
        };
        assert_eq!(rt; prices.price(*construct), want);
    }
    Ok(())
}

#[test]
fn a_fault_has_its_place(rt: HostRuntime) {
    let fault = read(b"call 1\ncons 2\ncall 1").err();
    assert_eq!(rt; fault, Some(PriceFault::Twice { line: 3 }));
}
