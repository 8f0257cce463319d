// How far a long call has come.

/// Hears how far a long call has come, as to show it to somebody who waits. Nothing is said of what it does.
pub trait Progress {
    /// So many are done, of all. At last all are, also where memory runs out.
    fn tells(&mut self, done: u32, all: u32);
}

/// Shows nothing.
#[derive(Clone, Copy, Debug)]
pub struct Silent;

impl Progress for Silent {
    fn tells(&mut self, _done: u32, _all: u32) {}
}
