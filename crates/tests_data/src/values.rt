// Each kind of value, read and printed. A line is types by words, `: `, data, ` => ` and what is shown.
use crate::shown::{compare_lines, shown, shown_of};
use crate::types::types_of;
use std::test::Fail;

// Numbers and truths, pairs and lists, trees and options, and several arguments.
const VALUES: &str = "\
int: 5 => 5
int: -5 => -5
int: -0 => 0
int: 9223372036854775807 => 9223372036854775807
int: -9223372036854775808 => -9223372036854775808
int: -000009223372036854775808 => -9223372036854775808
bool: true => true
int bool pair: (1,true) => (1, true)
int int bool pair pair: ( 1 ,(2 , false) ) => (1, (2, false))
int bool pair int pair: ((1,true),2) => ((1, true), 2)
int list: [] => []
int list: [ ] => []
int list: [1,-2 ,3] => [1, -2, 3]
bool list: [true, false] => [true, false]
int list list: [[1],[],[2,3]] => [[1], [], [2, 3]]
int int int pair pair list: [(1, (2, 3)), (1, (2, 4))] => [(1, (2, 3)), (1, (2, 4))]
int int list int list pair pair: (1, ([2, 3], [])) => (1, ([2, 3], []))
int tree: leaf => leaf
int tree: node(1,leaf,node(2,leaf,leaf)) => node(1, leaf, node(2, leaf, leaf))
int tree: node ( 1 , node(0,leaf,leaf) , leaf ) => node(1, node(0, leaf, leaf), leaf)
int list tree: node([1, 2], leaf, leaf) => node([1, 2], leaf, leaf)
int option: none => none
int option: some(3) => some(3)
int option: some ( -3 ) => some(-3)
int option option: some(none) => some(none)
int option list: [some(10),none] => [some(10), none]
int list option: some([]) => some([])
int tree option: some(leaf) => some(leaf)
int bool pair option tree: node(some((1,true)),leaf,leaf) => node(some((1, true)), leaf, leaf)
int int: (1, 2) => 1; 2
int int int pair list: (2, [(1, 10), (2, 20)]) => 2; [(1, 10), (2, 20)]
int int tree: (7, node(2, leaf, leaf)) => 7; node(2, leaf, leaf)
int list int tree: ([2, 1, 3], leaf) => [2, 1, 3]; leaf
int option int: (none, 5) => none; 5
int int pair int option:  ( (16,2) , some(8) )  => (16, 2); some(8)
int int list int: (7,[0],3) => 7
int int int int int int int int: (1,2,3,4,5,6,7,8) => 1";

#[test]
fn values(rt: HostRuntime) -> Result<(), Fail> {
    compare_lines(&rt, rt.alloc(), VALUES)
}

// Types by words, data with ends of lines, and what is shown.
const OF_LINES: [(&str, &str, &str); 3] = [
    ("int", " \t\r\n007 ", "7"),
    ("bool", "\nfalse", "false"),
    ("int", " \n", "Shape { at: Pos(2) }"),
];

#[test]
fn data_of_several_lines(rt: HostRuntime) -> Result<(), Fail> {
    for (types, data, want) in &OF_LINES {
        let found = shown_of(rt.alloc(), *types, *data)?;
        assert_eq!(rt; found.as_str(), *want);
    }
    Ok(())
}

#[test]
fn bytes_that_are_no_text(rt: HostRuntime) -> Result<(), Fail> {
    let table: [(&[u8], &str); 4] = [
        (b"\xff", "NotUtf8 { at: Pos(0) }"),
        (b"[1, \xe2\x82", "NotUtf8 { at: Pos(4) }"),
        (b"]\xff", "NotUtf8 { at: Pos(1) }"),
        (b"[1, \xe2\x82\xac]", "Shape { at: Pos(4) }"),
    ];
    let types = types_of(rt.alloc(), "int list")?;
    for (data, want) in table {
        let found = shown(rt.alloc(), &types, data)?;
        assert_eq!(rt; found.as_str(), want);
    }
    Ok(())
}
