// Blocks and certificates.
use crate::annot::Annot;
use cost_free::Task;
use raml_syntax::FunId;

/// What a function asks of its arguments, and what it leaves of its result.
#[derive(Debug, Drop)]
pub struct Sig {
    pub args: Annot,
    pub result: Annot,
}

/// What a rule leaves open.
#[derive(Debug, Drop)]
pub enum Hint {
    /// For each tuple of the variables that the bound form does not use, the annotation of its result.
    Let(Vec<Annot>),
    /// The annotation of the context with both copies.
    Share(Annot),
    /// Numbers of earlier cost-free blocks, ascending, and how often the signature of each is taken.
    Call(Vec<(u32, i128)>),
}

/// What a block has found.
#[derive(Debug, Drop)]
pub enum BlockBody {
    /// For each function of the group a signature, and its hints in the order of a walk through its body.
    Solved {
        sigs: Vec<Sig>,
        hints: Vec<Vec<Hint>>,
    },
    /// A vector that shows that there is no solution, by the numbers of its rows.
    Refuted {
        farkas: Vec<(u32, i128)>,
    },
    /// It was not tried, since the group calls this function, which has no bound.
    Calls {
        fun: FunId,
    },
}

/// A task, and what was found.
#[derive(Debug, Drop)]
pub struct Block {
    pub task: Task,
    pub body: BlockBody,
}

/// The blocks of a whole schedule. The numbers of the blocks with cost stand over the scales of their
/// meters. A certificate of version 1 has no scale of work, and one of version 2 has.
#[derive(Debug, Drop)]
pub struct Certificate {
    pub degree: u8,
    pub ticks_scale: i128,
    pub cells_scale: i128,
    pub work_scale: Option<i128>,
    pub blocks: Vec<Block>,
}
