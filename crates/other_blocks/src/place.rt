// Where the certificate's block of a task stands.
ghost use Rattle.std.specs.Prelude.{◌≡◌, ◌<◌, ◌↔◌, IfSome, IsTrue, length};
ghost use Rattle.cost_free.specs.Read.{task_of};
ghost use Rattle.annot_types.specs.Read.{body_of, blocks_of};
ghost use Rattle.other_blocks.specs.Other.{place_among, IsTried};

use annot_types::{Block, BlockBody};
use cert_check::same_task;
use cost_free::Task;

/// The place of the first block of the task; None where there is none.
pub fn place_of(task: &Task, blocks: &[Block]) -> Option<usize>
    ensures is { result ≡ place_among (task_of task.now) (blocks_of blocks.now) }
    ensures there { IfSome result (λ place. place < length blocks.now) }
{
    for place in 0..blocks.len() {
        if same_task(task, &blocks[place].task) {
            return Some(place);
        }
    }
    None
}

/// A block that waits was not tried.
pub fn is_tried(body: &BlockBody) -> bool
    ensures { IsTrue result ↔ IsTried (body_of body.now) }
{
    match body {
        BlockBody::Calls { .. } => false,
        BlockBody::Solved { .. } | BlockBody::Refuted { .. } => true,
    }
}
