// Where a walk is.
use crate::known::Known;
use crate::plan::Mode;
use std::alloc::Global;

/// What goes down a walk as it is: what is known, the mode, and the annotation of the result.
#[derive(Drop)]
pub struct Place<'k, 'r, T> {
    pub alloc: Global,
    pub known: &'k Known<'k, T>,
    pub mode: Mode,
    pub result: &'r [T],
}
