// What stands at the front of bytes.
ghost use Rattle.std.specs.Prelude.{◌≡◌, ◌≤◌, ◌<◌, ◌+◌, length, take, drop, IfOk, MatchOption};
ghost use Rattle.lsp_frames.specs.Marks.{blank_line, first_place, NoneBefore};
ghost use Rattle.lsp_frames.specs.Frames.{head_of, head_told, front_by, rest_of, most_header, Told};
ghost use Rattle.lsp_frames.specs.Seen.{Knows, head_seen, front_told};

use crate::field::FrameFault;
use crate::find::find_from;
use crate::head::length_in;
use std::alloc::{AllocError, Global};

/// A header part has at most so many bytes, its blank line among them.
const MOST_HEADER: usize = 8192;

/// What is known of the header part at the front of bytes.
#[derive(Clone, Copy, Debug, PartialEq, Eq)]
pub enum Seen {
    /// It has not ended, and no blank line begins before this place.
    Open(usize),
    /// It is at fault.
    Bad(FrameFault),
    /// The content starts at the first of the two, and has so many bytes as the second.
    Told(usize, usize),
}

/// What a reader answers.
#[derive(Debug, Drop)]
pub enum Reading {
    /// The content of the next message.
    Message(Vec<u8>),
    /// The next message is not whole yet.
    More,
    /// No message stands there, nor will one.
    Faulty(FrameFault),
}

/// What is known once the bytes are looked at.
pub fn looked(bytes: &[u8], seen: Seen) -> Seen
    requires { Knows bytes.now seen }
    ensures knows { Knows bytes.now result }
    ensures head { head_seen result ≡ head_of bytes.now }
{
    match seen {
        Seen::Open(place) => looked_from(bytes, place),
        Seen::Bad(fault) => Seen::Bad(fault),
        Seen::Told(start, size) => Seen::Told(start, size),
    }
}

// The same, where no blank line begins before the place.
fn looked_from(bytes: &[u8], place: usize) -> Seen
    requires { NoneBefore blank_line place bytes.now }
    ensures knows { Knows bytes.now result }
    ensures head { head_seen result ≡ head_of bytes.now }
{
    let window = &bytes[..bytes.len().min(MOST_HEADER)];
    match find_from(window, b"\r\n\r\n", place) {
        Some(end) => told_at(end + 4, length_in(&bytes[..end])),
        None => open_or_long(bytes),
    }
}

// What a header part tells before the place at which the content starts.
fn told_at(start: usize, length: Result<usize, FrameFault>) -> Seen
    ensures { head_seen result ≡ head_told start length }
{
    match length {
        Ok(size) => Seen::Told(start, size),
        Err(fault) => Seen::Bad(fault),
    }
}

// Where the first bytes have no blank line.
fn open_or_long(bytes: &[u8]) -> Seen
    requires { first_place blank_line (take most_header bytes.now) ≡ None }
    ensures knows { Knows bytes.now result }
    ensures head { head_seen result ≡ head_of bytes.now }
{
    if bytes.len() >= MOST_HEADER {
        Seen::Bad(FrameFault::HeaderTooLong)
    } else {
        Seen::Open(bytes.len().saturating_sub(3))
    }
}

/// What is read at the front of the bytes, and how many of them it takes.
pub fn read_front(alloc: Global, bytes: &[u8], seen: Seen) -> Result<(Reading, usize), AllocError>
    ensures front { IfOk result (λ r. front_by bytes.now (head_seen seen) ≡ front_told r.0 (drop r.1 bytes.now)) }
    ensures rest { IfOk result (λ r. rest_of bytes.now (front_by bytes.now (head_seen seen)) ≡ drop r.1 bytes.now) }
    ensures within { IfOk result (λ r. r.1 ≤ length bytes.now) }
{
    match seen {
        Seen::Open(_) => Ok((Reading::More, 0)),
        Seen::Bad(fault) => Ok((Reading::Faulty(fault), 0)),
        Seen::Told(start, size) => read_content(alloc, bytes, start, size),
    }
}

// The same, where the header part tells where the content is.
fn read_content(
    alloc: Global,
    bytes: &[u8],
    start: usize,
    size: usize,
) -> Result<(Reading, usize), AllocError>
    ensures front { IfOk result (λ r. front_by bytes.now (Told start size) ≡ front_told r.0 (drop r.1 bytes.now)) }
    ensures rest { IfOk result (λ r. rest_of bytes.now (front_by bytes.now (Told start size)) ≡ drop r.1 bytes.now) }
    ensures within { IfOk result (λ r. r.1 ≤ length bytes.now) }
{
    let Some(content) = content_at(bytes, start, size) else {
        return Ok((Reading::More, 0));
    };
    let message = Vec::from_slice(alloc, content)?;
    Ok((Reading::Message(message), start + size))
}

// As many bytes from a place on, where there are as many.
fn content_at(bytes: &[u8], start: usize, size: usize) -> Option<&[u8]>
    ensures { MatchOption result (length bytes.now < start + size)
        (λ content. (start + size ≤ length bytes.now) × (content.now ≡ take size (drop start bytes.now))) }
{
    let (_, behind) = bytes.split_at_checked(start)?;
    let (content, _) = behind.split_at_checked(size)?;
    Some(content)
}
