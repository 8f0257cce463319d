// Arithmetic and ticks.
use crate::runs::{run_on, run_on_two};
use metered_vm::End;
use std::test::Fail;
use value_text::Word;

#[test]
fn the_greatest_number_and_one_more(rt: HostRuntime) -> Result<(), Fail> {
    let source = "fun main (x : int) : int = x + 1";
    let ran = run_on(rt.alloc(), source, i64::MAX, 4, 4)?;
    let least = End::Halted {
        word: Word::Int(i64::MIN),
    };
    assert!(rt; ran.ended(least, least));
    assert!(rt; ran.took(0, 0, 4));
    Ok(())
}

#[test]
fn a_run_goes_on_where_it_stopped(rt: HostRuntime) -> Result<(), Fail> {
    let source = "fun main (x : int) : int = tick 3 in x";
    let five = End::Halted { word: Word::Int(5) };
    for (first, steps, stopped, ended, made) in [
        (0, 1, End::Stopped, End::Stopped, 1),
        (1, 2, End::Stopped, End::Stopped, 2),
        (1, 3, End::Stopped, five, 3),
        (3, 9, five, five, 3),
    ] {
        let ran = run_on(rt.alloc(), source, 5, first, steps)?;
        assert!(rt; ran.ended(stopped, ended), "from {first} to {steps}");
        assert!(rt; ran.took(3, 0, made), "from {first} to {steps}");
    }
    Ok(())
}

#[test]
fn quotients_and_remainders(rt: HostRuntime) -> Result<(), Fail> {
    let quotient = "fun main (x : int, y : int) : int = x div y";
    let remainder = "fun main (x : int, y : int) : int = x mod y";
    for (source, x, y, gives) in [
        (quotient, 5, 0, 0),
        (remainder, 5, 0, 5),
        (quotient, -7, 2, -3),
        (remainder, -7, 2, -1),
        (quotient, i64::MIN, -1, i64::MIN),
        (remainder, i64::MIN, -1, 0),
    ] {
        let ran = run_on_two(rt.alloc(), source, x, y, 0)?;
        let end = End::Halted {
            word: Word::Int(gives),
        };
        assert!(rt; ran.end == end, "{x} and {y}");
        assert!(rt; ran.instructions == 4, "{x} and {y}");
    }
    Ok(())
}

#[test]
fn a_pair_takes_a_cell(rt: HostRuntime) -> Result<(), Fail> {
    let source = "fun main (x : int, y : int) : int * int = (x, y)";
    let pair = End::Halted {
        word: Word::Cell(0),
    };
    for (limit, ended, cells, made) in [(0, End::HeapFull, 0, 2), (1, pair, 1, 4)] {
        let ran = run_on_two(rt.alloc(), source, 1, 2, limit)?;
        assert!(rt; ran.end == ended, "with {limit}");
        assert!(rt; ran.took(0, cells, made), "with {limit}");
        assert!(rt; ran.heap == cells, "with {limit}");
    }
    Ok(())
}
