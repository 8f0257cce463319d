// Edits of texts.
ghost use Rattle.std.specs.Prelude.{◌≡◌, ◌+◌, ◌-◌, ◌^◌, ◌++◌, min, IfOk, OnOk, take, drop, string_bytes};
ghost use Rattle.explain_edits.specs.Edits.{with_edits};
ghost use Rattle.explain_edits.specs.Read.{edits_of};

use std::alloc::{AllocError, Global};

/// As many bytes, from one on, that a text replaces.
#[derive(Debug, Drop)]
pub struct Edit {
    pub at: usize,
    pub length: usize,
    pub text: String,
}

impl Edit {
    /// Where what it replaces ends.
    fn end(&self) -> usize
        ensures { result ≡ min (self.now.at + self.now.length) (2 ^ 64 - 1) }
    {
        self.at.saturating_add(self.length)
    }

    /// Appends the source from a byte on and before what it replaces, and what replaces it.
    fn append(&self, source: &[u8], from: usize, text: &mut Vec<u8>) -> Result<(), AllocError>
        ensures { OnOk result (text.new.items
            ≡ text.old.items ++ (take (self.now.at - from) (drop from source.now) ++ string_bytes self.now.text)) }
    {
        text.extend_from_slice(between(source, from, self.at))?;
        text.extend_from_slice(self.text.as_bytes())
    }
}

/// The source with some edits made, which stand in their order. All else is kept.
pub fn edited(alloc: Global, source: &[u8], edits: &[Edit]) -> Result<Vec<u8>, AllocError>
    ensures { IfOk result (λ text. text.items ≡ with_edits source.now (edits_of edits.now)) }
{
    let mut text = Vec::new(alloc);
    let mut from = 0;
    for edit in edits {
        edit.append(source, from, &mut text)?;
        from = edit.end();
    }
    text.extend_from_slice(starting(source, from))?;
    Ok(text)
}

/// The source from a byte on.
fn starting(source: &[u8], from: usize) -> &[u8]
    ensures { result.now ≡ drop from source.now }
{
    &source[from.min(source.len())..]
}

/// The source from a byte on and before another.
fn between(source: &[u8], from: usize, to: usize) -> &[u8]
    ensures { result.now ≡ take (to - from) (drop from source.now) }
{
    let rest = starting(source, from);
    &rest[..to.saturating_sub(from).min(rest.len())]
}
