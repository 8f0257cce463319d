// Texts with their tokens or their first fault.
use raml_lex::tokens;
use std::alloc::Global;
use std::fmt::Write;
use std::process::Abort;
use std::test::Fail;

// Each token as its kind and its bytes, or the fault.
fn shown(rt: &impl Abort, alloc: Global, text: &str) -> Result<String, Fail> {
    assert!(rt; text.len() < 1000);
    let mut out = String::new(alloc);
    match tokens(alloc, text) {
        Err(fault) => write!(out, "{fault:?}")?,
        Ok(found) => {
            for token in &found {
                let word = text
                    .get(token.at.0 as usize..token.end.0 as usize)
                    .ok_or("no word")?;
                let kind = token.kind;
                write!(out, "{kind:?} {word}; ")?;
            }
        }
    }
    Ok(out)
}

fn compare(rt: &impl Abort, alloc: Global, table: &[(&str, &str)]) -> Result<(), Fail> {
    for (text, want) in table {
        let found = shown(rt, alloc, text)?;
        assert_eq!(rt; found.as_str(), *want, "at {text}");
    }
    Ok(())
}

#[test]
fn each_token(rt: HostRuntime) -> Result<(), Fail> {
    compare(
        &rt,
        rt.alloc(),
        &[
            ("", ""),
            ("x", "Name x; "),
            ("x_1'Z z9", "Name x_1'Z; Name z9; "),
            (
                "fun let in if then else",
                "Keyword fun; Keyword let; Keyword in; Keyword if; Keyword then; Keyword else; ",
            ),
            (
                "match with nil leaf node true false",
                "Keyword match; Keyword with; Keyword nil; Keyword leaf; Keyword node; Keyword true; Keyword false; ",
            ),
            (
                "not tick div mod int bool list tree",
                "Keyword not; Keyword tick; Keyword div; Keyword mod; Keyword int; Keyword bool; Keyword list; Keyword tree; ",
            ),
            (
                "option none some",
                "Keyword option; Keyword none; Keyword some; ",
            ),
            ("0 42 007", "Number 0; Number 42; Number 007; "),
            (
                "( ) , : :: = <",
                "Symbol (; Symbol ); Symbol ,; Symbol :; Symbol ::; Symbol =; Symbol <; ",
            ),
            (
                "<= + - * -> |",
                "Symbol <=; Symbol +; Symbol -; Symbol *; Symbol ->; Symbol |; ",
            ),
            (" \t\n\rx \r\n", "Name x; "),
        ],
    )
}

#[test]
fn longest_match(rt: HostRuntime) -> Result<(), Fail> {
    compare(
        &rt,
        rt.alloc(),
        &[
            ("<=<", "Symbol <=; Symbol <; "),
            ("<==", "Symbol <=; Symbol =; "),
            (":::", "Symbol ::; Symbol :; "),
            ("->-", "Symbol ->; Symbol -; "),
            ("-->", "Symbol -; Symbol ->; "),
            ("nilx", "Name nilx; "),
            ("nil x", "Keyword nil; Name x; "),
            ("let'", "Name let'; "),
            ("lets", "Name lets; "),
            ("none' nones", "Name none'; Name nones; "),
            ("some(x)", "Keyword some; Symbol (; Name x; Symbol ); "),
            ("1x", "Number 1; Name x; "),
            ("x1", "Name x1; "),
            ("h::t", "Name h; Symbol ::; Name t; "),
            ("f(x)", "Name f; Symbol (; Name x; Symbol ); "),
            (
                "x->(1)",
                "Name x; Symbol ->; Symbol (; Number 1; Symbol ); ",
            ),
        ],
    )
}

#[test]
fn comments(rt: HostRuntime) -> Result<(), Fail> {
    compare(
        &rt,
        rt.alloc(),
        &[
            ("(**)", ""),
            ("x(* y *)z", "Name x; Name z; "),
            ("(* a (* b *) c *) d", "Name d; "),
            ("(*(**)*)d", "Name d; "),
            ("(*) *) d", "Name d; "),
            ("(* (*) *) *) d", "Name d; "),
            ("(***) d", "Name d; "),
            (
                "(* caf\u{e9} \u{1f600} $ 99999999999999999999 *) d",
                "Name d; ",
            ),
            ("( *)", "Symbol (; Symbol *; Symbol ); "),
        ],
    )
}

#[test]
fn faults(rt: HostRuntime) -> Result<(), Fail> {
    compare(
        &rt,
        rt.alloc(),
        &[
            ("x $", "BadChar { at: Pos(2) }"),
            ("'", "BadChar { at: Pos(0) }"),
            ("_", "BadChar { at: Pos(0) }"),
            ("a X", "BadChar { at: Pos(2) }"),
            ("\u{b}", "BadChar { at: Pos(0) }"),
            ("x\u{e9}", "BadChar { at: Pos(1) }"),
            ("\u{a0}x", "BadChar { at: Pos(0) }"),
            ("(* \u{e9} *)\u{e9}", "BadChar { at: Pos(8) }"),
            ("9223372036854775807", "Number 9223372036854775807; "),
            (
                "00000000000000000000000000000009223372036854775807",
                "Number 00000000000000000000000000000009223372036854775807; ",
            ),
            ("9223372036854775808", "NumberTooWide { at: Pos(0) }"),
            ("x 09223372036854775808", "NumberTooWide { at: Pos(2) }"),
            (
                "99999999999999999999999999999999999999999999",
                "NumberTooWide { at: Pos(0) }",
            ),
            ("fun f (* x", "OpenComment { at: Pos(6) }"),
            ("x (* (* *)", "OpenComment { at: Pos(2) }"),
            ("(*)", "OpenComment { at: Pos(0) }"),
            ("(*", "OpenComment { at: Pos(0) }"),
            ("$ 9223372036854775808 (*", "BadChar { at: Pos(0) }"),
            ("9223372036854775808 $ (*", "NumberTooWide { at: Pos(0) }"),
            ("(* $ 9223372036854775808", "OpenComment { at: Pos(0) }"),
        ],
    )
}
