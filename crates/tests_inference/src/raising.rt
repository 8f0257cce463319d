//! Blocks whose numbers are multiplied, and vectors as entries.
ghost use Rattle.std.specs.Prelude.{IsTrue};
ghost use Rattle.cost_free.specs.declared.task.Meter.TheVariants.{Ticks};
ghost use Rattle.annot_types.specs.Read.{block_of, blocks_of};
ghost use Rattle.infer_spec.specs.Places.{IsOfMeter};
ghost use Rattle.bound_infer.specs.Raised.{NoneOf};

use crate::programs::{certificate, push_certificate};
use annot_types::{Block, BlockBody};
use bound_infer::{Factor, RaiseFault, listed, raise};
use cost_free::{Meter, TaskKind};
use std::alloc::Global;
use std::fmt::Write;
use std::test::Fail;

fn is_of_ticks(block: &Block) -> bool
    ensures { IsTrue result → IsOfMeter Ticks (block_of block.now) }
{
    matches!(block.task.kind, TaskKind::With(Meter::Ticks))
        && matches!(block.body, BlockBody::Solved { .. })
}

/// Whether a block is solved for ticks.
fn has_ticks(blocks: &[Block]) -> bool
    ensures { IsTrue result → NoneOf Ticks (blocks_of blocks.now) → ⊥ }
{
    for place in 0..blocks.len() {
        if is_of_ticks(&blocks[place]) {
            return true;
        }
    }
    false
}

/// What becomes of the blocks of a text and of the scale of ticks, times 2.
fn raised(alloc: Global, text: &str, scale: i128) -> Result<String, Fail> {
    let mut certificate = certificate(alloc, text)?;
    let told = doubled(alloc, &mut certificate.blocks, scale)?;
    let mut out = String::new(alloc);
    match told {
        Ok(scale) => {
            write!(out, "scale {scale} ")?;
            push_certificate(alloc, &mut out, &certificate)?;
        }
        Err(block) => write!(out, "leaves at block {block}")?,
    }
    Ok(out)
}

/// The new scale, or the block that leaves.
fn doubled(alloc: Global, blocks: &mut [Block], scale: i128) -> Result<Result<i128, usize>, Fail> {
    let two = Factor::new(2);
    if scale != 1 && !has_ticks(blocks) {
        return Err(Fail::new("there is no block of ticks"));
    }
    match raise(alloc, blocks, Meter::Ticks, scale, &two) {
        Ok(product) => Ok(Ok(product)),
        Err(RaiseFault::Leaves { block }) => Ok(Err(block)),
        Err(RaiseFault::NoMemory) => Err(Fail::new("no memory")),
    }
}

/// Without cost, for ticks twice, for cells, and blocks that are not solved; 2^126 - 1 stands for ticks, and
/// 2^126 for cells.
const BEFORE: &str =
    r#"{"blocks":[{"budget":0,"function":0,"group":0,"hints":[[]],"kind":"free","sigs":[[[[0,"1"]],[[0,"1"]]]],"target":0},{"group":0,"hints":[[{"let":[[[0,"2"],[3,"5"]],[]]},{"share":[[1,"7"]]},{"call":[[0,"1"]]}]],"kind":"ticks","sigs":[[[[0,"85070591730234615865843651857942052863"]],[[1,"4"]]]]},{"group":0,"hints":[[]],"kind":"cells","sigs":[[[[0,"85070591730234615865843651857942052864"]],[]]]},{"farkas":[[0,"3"]],"group":1,"kind":"ticks"},{"calls":0,"group":2,"kind":"ticks"},{"group":3,"hints":[[]],"kind":"ticks","sigs":[[[[0,"6"]],[]]]}],"degree":1,"scale":{"cells":"1","ticks":"1"},"version":1}"#;

/// The numbers of the blocks that are solved for ticks are doubled, and no others.
const AFTER: &str =
    r#"scale 6 {"blocks":[{"budget":0,"function":0,"group":0,"hints":[[]],"kind":"free","sigs":[[[[0,"1"]],[[0,"1"]]]],"target":0},{"group":0,"hints":[[{"let":[[[0,"4"],[3,"10"]],[]]},{"share":[[1,"14"]]},{"call":[[0,"2"]]}]],"kind":"ticks","sigs":[[[[0,"170141183460469231731687303715884105726"]],[[1,"8"]]]]},{"group":0,"hints":[[]],"kind":"cells","sigs":[[[[0,"85070591730234615865843651857942052864"]],[]]]},{"farkas":[[0,"3"]],"group":1,"kind":"ticks"},{"calls":0,"group":2,"kind":"ticks"},{"group":3,"hints":[[]],"kind":"ticks","sigs":[[[[0,"12"]],[]]]}],"degree":1,"scale":{"cells":"1","ticks":"1"},"version":1}"#;

/// 2^126 stands in a block of cells, in a hint of the fourth block and in a signature of the last one.
const NUMBERS: &str =
    r#"{"blocks":[{"group":0,"hints":[[]],"kind":"cells","sigs":[[[[0,"85070591730234615865843651857942052864"]],[]]]},{"group":0,"hints":[[]],"kind":"ticks","sigs":[[[[0,"1"]],[]]]},{"farkas":[[0,"85070591730234615865843651857942052864"]],"group":1,"kind":"ticks"},{"group":2,"hints":[[{"share":[[0,"85070591730234615865843651857942052864"]]}]],"kind":"ticks","sigs":[[[[0,"1"]],[]]]},{"group":3,"hints":[[]],"kind":"ticks","sigs":[[[[0,"85070591730234615865843651857942052864"]],[]]]}],"degree":1,"scale":{"cells":"1","ticks":"1"},"version":1}"#;

/// Blocks, the scale, and what becomes of them. Twice 2^126 leaves in the fourth block first; where it is the
/// scale, the first solved block of the meter is told.
const RAISED: [(&str, i128, &str); 4] = [
    (BEFORE, 3, AFTER),
    (NUMBERS, 1, "leaves at block 3"),
    (
        NUMBERS,
        85070591730234615865843651857942052863,
        "leaves at block 3",
    ),
    (
        NUMBERS,
        85070591730234615865843651857942052864,
        "leaves at block 1",
    ),
];

#[test]
fn blocks_are_raised(rt: HostRuntime) -> Result<(), Fail> {
    for (text, scale, want) in &RAISED {
        let found = raised(rt.alloc(), text, *scale)?;
        assert!(rt; found.as_str() == *want, "{found} at the scale {scale}");
    }
    Ok(())
}

/// Whether these are the entries of a vector.
fn is_listed(alloc: Global, vector: &[i128], want: &[(u32, i128)]) -> Result<bool, Fail> {
    if vector.len() > 9 {
        return Err(Fail::new("the vector is long"));
    }
    Ok(listed(alloc, vector)?.as_slice() == want)
}

#[test]
fn vectors_are_listed(rt: HostRuntime) -> Result<(), Fail> {
    assert!(rt; is_listed(rt.alloc(), &[], &[])?);
    assert!(rt; is_listed(rt.alloc(), &[0, 3, 0, 5, 0], &[(1, 3), (3, 5)])?);
    Ok(())
}
