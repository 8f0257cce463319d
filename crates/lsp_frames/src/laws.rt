// Laws of streams: each is the contract of a function that does nothing.
ghost use Rattle.std.specs.Prelude.{ℕ, List, ◌≡◌, ◌≤◌, ◌++◌, length};
ghost use Rattle.lsp_frames.specs.Fields.{most_content};
ghost use Rattle.lsp_frames.specs.Frames.{front, frame, Whole, IsFrame};
ghost use Rattle.lsp_frames.specs.Example.{Examples};

/// Small streams have the messages that were worked out by hand.
pub fn small_examples()
    ensures { Examples }
{}

/// What is written is read, whatever follows it.
pub fn written_is_read()
    ensures { (content rest : List ℕ) → length content ≤ most_content → front (frame content ++ rest) ≡ Whole content rest }
{}

/// A message that is read is a header part, its first blank line, and the content, as long as the
/// header part tells; and each such message is read.
pub fn messages_are_frames()
    ensures read { (bytes content rest : List ℕ) → front bytes ≡ Whole content rest → IsFrame bytes content rest }
    ensures only { (bytes content rest : List ℕ) → IsFrame bytes content rest → front bytes ≡ Whole content rest }
{}
