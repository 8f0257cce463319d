// The difference of two texts.
ghost use Rattle.std.specs.Prelude.{◌≡◌, ◌≤◌, ◌-◌, length, take, drop, IfOk, IfSome};
ghost use Rattle.explain_faults.specs.Repairs.{changed, edit_in};

use lsp_language::{Edit, Span};
use std::alloc::{AllocError, Global};

/// The edit that makes the second text of the first: all lines between those that both begin with and those that both end with.
/// None where what it puts in is not UTF-8.
pub(crate) fn difference(alloc: Global, old: &[u8], new: &[u8]) -> Result<Option<Edit>, AllocError>
    ensures { IfOk result (λ edit. IfSome edit (λ e. changed old.now (edit_in e) ≡ new.now)) }
{
    let start = same_front(old, new);
    let (old_rest, new_rest) = (&old[start..], &new[start..]);
    let end = same_back(old_rest, new_rest);
    let (old_end, new_end) = (old_rest.len() - end, new_rest.len() - end);
    match std::str::from_utf8(&new_rest[..new_end]) {
        Ok(text) => Ok(Some(Edit {
            span: Span {
                start,
                end: start + old_end,
            },
            text: String::from_str(alloc, text)?,
        })),
        Err(_) => Ok(None),
    }
}

/// How many bytes at the front are the same, up to the end of a line.
fn same_front(old: &[u8], new: &[u8]) -> usize
    ensures old { result ≤ length old.now }
    ensures new { result ≤ length new.now }
    ensures same { take result old.now ≡ take result new.now }
{
    let mut lines = 0;
    let mut count = 0;
    while count < old.len() && count < new.len() && old[count] == new[count] {
        count += 1;
        if old[count - 1] == b'\n' {
            lines = count;
        }
    }
    lines
}

/// How many bytes at the end are the same, from the beginning of a line on.
fn same_back(old: &[u8], new: &[u8]) -> usize
    ensures old { result ≤ length old.now }
    ensures new { result ≤ length new.now }
    ensures same { drop (length old.now - result) old.now ≡ drop (length new.now - result) new.now }
{
    let mut lines = 0;
    let mut count = 0;
    while count < old.len()
        && count < new.len()
        && old[old.len() - count - 1] == new[new.len() - count - 1]
    {
        if old[old.len() - count - 1] == b'\n' {
            lines = count;
        }
        count += 1;
    }
    lines
}
