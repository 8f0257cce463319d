// The ends of a run.
use value_text::Word;

/// How a run ends.
#[derive(Clone, Copy, PartialEq, Eq, Debug)]
pub enum End {
    /// The machine has halted with the word.
    Halted { word: Word },
    /// So many instructions as were allowed are made, and it goes on.
    Stopped,
    /// Fewer are made, and the next one takes a cell where all are taken.
    HeapFull,
}
