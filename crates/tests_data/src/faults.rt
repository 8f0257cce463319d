// Data that spells no arguments, with the place of its first fault, as lines of values.
use crate::shown::compare_lines;
use std::test::Fail;

const FAULTS: &str = "\
int:  => Shape { at: Pos(0) }
int: x => Shape { at: Pos(0) }
int: true => Shape { at: Pos(0) }
int: 1 2 => Shape { at: Pos(2) }
int: 1x => Shape { at: Pos(1) }
int: - => Shape { at: Pos(0) }
int:  - 1 => Shape { at: Pos(1) }
int: --1 => Shape { at: Pos(0) }
int: +1 => Shape { at: Pos(0) }
int: (1) => Shape { at: Pos(0) }
int: 9223372036854775808 => Shape { at: Pos(0) }
int: -9223372036854775809 => Shape { at: Pos(0) }
int:  99999999999999999999999999999999999999999999 => Shape { at: Pos(1) }
int: (* none *) 1 => Shape { at: Pos(0) }
int: 1 (* none *) => Shape { at: Pos(2) }
int: 1\u{b} => Shape { at: Pos(1) }
int: \u{e9} => Shape { at: Pos(0) }
bool: 1 => Shape { at: Pos(0) }
bool: truex => Shape { at: Pos(0) }
bool: true' => Shape { at: Pos(0) }
bool: True => Shape { at: Pos(0) }
bool: none => Shape { at: Pos(0) }
bool: false true => Shape { at: Pos(6) }
int list: [1, 2 => Shape { at: Pos(5) }
int list: [1, 2  => Shape { at: Pos(6) }
int list: [ => Shape { at: Pos(1) }
int list: ] => Shape { at: Pos(0) }
int list: [,] => Shape { at: Pos(1) }
int list: [1,,2] => Shape { at: Pos(3) }
int list: [1,] => Shape { at: Pos(3) }
int list: [1 2] => Shape { at: Pos(3) }
int list: [1, true] => Shape { at: Pos(4) }
int list: [1, 2) => Shape { at: Pos(5) }
int list: [1, 9223372036854775808] => Shape { at: Pos(4) }
int list: [1] [2] => Shape { at: Pos(4) }
int list: nil => Shape { at: Pos(0) }
int bool pair: (1, 2) => Shape { at: Pos(4) }
int bool pair: (1 true) => Shape { at: Pos(3) }
int bool pair: (1, true => Shape { at: Pos(8) }
int bool pair: (1, true, 2) => Shape { at: Pos(8) }
int bool pair: (true, 1) => Shape { at: Pos(1) }
int bool pair: [1, true] => Shape { at: Pos(0) }
int tree: node => Shape { at: Pos(4) }
int tree: node 1 => Shape { at: Pos(5) }
int tree: node(leaf, leaf, leaf) => Shape { at: Pos(5) }
int tree: node(1, leaf) => Shape { at: Pos(12) }
int tree: node(1, leaf, 2) => Shape { at: Pos(14) }
int tree: node(1, leaf, none) => Shape { at: Pos(14) }
int tree: none => Shape { at: Pos(0) }
int tree: leaf leaf => Shape { at: Pos(5) }
int tree: leafs => Shape { at: Pos(0) }
int option: some => Shape { at: Pos(4) }
int option: some 1 => Shape { at: Pos(5) }
int option: some() => Shape { at: Pos(5) }
int option: some(none) => Shape { at: Pos(5) }
int option: some(1 => Shape { at: Pos(6) }
int option: some(1, 2) => Shape { at: Pos(6) }
int option: Some(1) => Shape { at: Pos(0) }
int option: leaf => Shape { at: Pos(0) }
int option: [] => Shape { at: Pos(0) }
int option: none(1) => Shape { at: Pos(4) }
int option: none none => Shape { at: Pos(5) }
int int: 1 => Shape { at: Pos(0) }
int int: (1) => Shape { at: Pos(2) }
int int: (1, 2 => Shape { at: Pos(5) }
int int: (1, 2, 3) => Shape { at: Pos(5) }
int int: (1, 2) 3 => Shape { at: Pos(7) }
int int: ((1, 2)) => Shape { at: Pos(1) }
int int: [1, 2] => Shape { at: Pos(0) }";

#[test]
fn faults(rt: HostRuntime) -> Result<(), Fail> {
    compare_lines(&rt, rt.alloc(), FAULTS)
}
