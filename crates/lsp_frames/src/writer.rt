// Messages as they are written.
ghost use Rattle.std.specs.Prelude.{◌≡◌, ◌++◌, take, vec_len, OnOk, OnErr};
ghost use Rattle.lsp_frames.specs.Frames.{frame};

use itoa::Buffer;
use std::alloc::AllocError;

/// Appends a message with this content. Without memory nothing is appended.
pub fn push_frame(bytes: &mut Vec<u8>, content: &[u8]) -> Result<(), AllocError>
    ensures ok { OnOk result (bytes.new.items ≡ bytes.old.items ++ frame content.now) }
    ensures err { OnErr result (bytes.new.items ≡ bytes.old.items) }
{
    let before = bytes.len();
    let pushed = push_parts(bytes, content);
    if pushed.is_err() {
        bytes.truncate(before);
    }
    pushed
}

// Appends the header part and the content. Without memory a part of them may be appended.
fn push_parts(bytes: &mut Vec<u8>, content: &[u8]) -> Result<(), AllocError>
    ensures ok { OnOk result (bytes.new.items ≡ bytes.old.items ++ frame content.now) }
    ensures kept { take (vec_len bytes.old) bytes.new.items ≡ bytes.old.items }
{
    let mut buffer = Buffer::new();
    bytes.extend_from_slice(b"Content-Length: ")?;
    bytes.extend_from_slice(buffer.format(content.len()).as_bytes())?;
    bytes.extend_from_slice(b"\r\n\r\n")?;
    bytes.extend_from_slice(content)
}
