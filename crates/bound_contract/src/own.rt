// Where the certificate's block of a declared bound stands.
ghost use Rattle.std.specs.Prelude.{◌≡◌, ◌<◌, IfSome, length};
ghost use Rattle.call_groups.specs.Read.{ids_of};
ghost use Rattle.cost_free.specs.Blocked.{is_among};
ghost use Rattle.annot_types.specs.Held.{is_for_function};
ghost use Rattle.annot_types.specs.Read.{block_of, blocks_of};
ghost use Rattle.rules_plan.specs.Read.{program_in};
ghost use Rattle.bound_contract.specs.Decided.{own_place};
ghost use Rattle.bound_file.specs.Read.{line_of};

use annot_types::Block;
use bound_file::DeclLine;
use cert_check::members;
use cost_free::{Meter, TaskKind};
use raml_syntax::FunId;
use share_normal::NormProgram;

fn is_among(fun: FunId, functions: &[FunId]) -> bool
    ensures { result ≡ is_among fun.0 (ids_of functions.now) }
{
    for function in functions {
        if fun.0 == function.0 {
            return true;
        }
    }
    false
}

// The block is that of the meter for the function's group.
fn is_for_function(program: &NormProgram<'_>, meter: Meter, fun: FunId, block: &Block) -> bool
    ensures { result ≡ is_for_function (program_in program.now) meter fun.0 (block_of block.now) }
{
    match block.task.kind {
        TaskKind::Free { .. } => false,
        TaskKind::With(other) => {
            meter == other && is_among(fun, members(program, block.task.group))
        }
    }
}

/// The place of the first block that is of the bound's meter and of a group with its function.
pub(crate) fn own_place(
    program: &NormProgram<'_>,
    line: &DeclLine,
    blocks: &[Block],
) -> Option<usize>
    ensures is { result ≡ own_place (program_in program.now) (line_of line.now) (blocks_of blocks.now) }
    ensures there { IfSome result (λ place. place < length blocks.now) }
{
    for place in 0..blocks.len() {
        if is_for_function(program, line.meter, line.fun, &blocks[place]) {
            return Some(place);
        }
    }
    None
}
