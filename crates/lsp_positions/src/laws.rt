// Laws of positions: each is the contract of a function that does nothing.
ghost use Rattle.std.specs.Prelude.{ℕ, List, ◌≡◌, ◌≤◌, ◌<◌, ◌-◌, true, length};
ghost use Rattle.lsp_positions.specs.Columns.{is_boundary};
ghost use Rattle.lsp_positions.specs.Positions.{position_of, offset_of, IsWithinEnding};
ghost use Rattle.lsp_positions.specs.Example.{Examples};

use crate::position::Encoding;

/// A small text has the positions that were worked out by hand.
pub fn small_examples()
    ensures { Examples }
{}

/// The way back from the position of a place leads to the place, where a character begins there or the
/// text ends, but for a place within an ending `\r\n`.
pub fn there_and_back(encoding: Encoding)
    ensures { (text : List ℕ) (place : ℕ) → place ≤ length text → is_boundary text place ≡ true → ¬ (IsWithinEnding text place) →
        offset_of encoding text (position_of encoding text place) ≡ place }
{}

/// From a place within an ending `\r\n` the way back leads to the place before the ending.
pub fn back_from_ending(encoding: Encoding)
    ensures { (text : List ℕ) (place : ℕ) → place < length text → IsWithinEnding text place →
        offset_of encoding text (position_of encoding text place) ≡ place - 1 }
{}
