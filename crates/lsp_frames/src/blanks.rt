// Blanks around the value of a field.
ghost use Rattle.std.specs.Prelude.{◌≡◌, ◌≤◌, take, drop, length};
ghost use Rattle.lsp_frames.specs.Marks.{is_blank, after_blanks, before_blanks, trimmed};

/// The text without the spaces and tabs at its start and at its end.
pub fn trimmed(text: &[u8]) -> &[u8]
    ensures { result.now ≡ trimmed text.now }
{
    let behind = &text[first_start(text)..];
    &behind[..last_end(behind)]
}

fn is_blank(byte: u8) -> bool
    ensures { result ≡ is_blank byte }
{
    byte == b' ' || byte == b'\t'
}

// Where the blanks at the start end.
fn first_start(text: &[u8]) -> usize
    ensures within { result ≤ length text.now }
    ensures text { drop result text.now ≡ after_blanks text.now }
{
    let mut start = 0;
    for byte in text {
        if !is_blank(*byte) {
            return start;
        }
        start += 1;
    }
    start
}

// Where the blanks at the end begin.
fn last_end(text: &[u8]) -> usize
    ensures within { result ≤ length text.now }
    ensures text { take result text.now ≡ before_blanks text.now }
{
    let mut end = text.len();
    while end > 0 {
        if !is_blank(text[end - 1]) {
            return end;
        }
        end -= 1;
    }
    end
}
