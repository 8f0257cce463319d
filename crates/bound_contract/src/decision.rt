// What is decided of declared bounds.
use other_blocks::OtherBlock;
use raml_syntax::FunId;

/// Whether a declared bound is kept.
#[derive(Drop)]
pub enum Decision<'p, 'a> {
    /// The annotation of this block lies under it, so that it is a bound.
    Kept(OtherBlock<'p, 'a>),
    /// No annotation lies under it. The vector, a number for each row, refutes the rows of the task with
    /// those of the bound.
    NotKept { farkas: Vec<i128> },
    /// The function's group calls this function, which has no bound.
    Calls(FunId),
}
