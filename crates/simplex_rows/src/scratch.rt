//! Room for rows that are made.

use crate::wide::WideRow;
use std::alloc::Global;

/// Room in which new rows are made, and whose memory goes from one to the next.
#[derive(Debug, Drop)]
pub struct RowScratch {
    pub(crate) short: Vec<(u32, i64)>,
    pub(crate) wide: WideRow,
}

impl RowScratch {
    /// No room yet.
    pub fn new(alloc: Global) -> RowScratch {
        RowScratch {
            short: Vec::new(alloc),
            wide: WideRow::new(alloc),
        }
    }
}
