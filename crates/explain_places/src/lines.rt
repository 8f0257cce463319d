// Lines of a text.
ghost use Rattle.std.specs.Prelude.{◌≡◌, ◌≤◌, ◌<◌, ◌^◌, take, drop, reverse, length};
ghost use Rattle.explain_places.specs.Places.{is_newline, how_many, to_newline, line_before, line_text};

/// The bytes of the line in which the offset stands, without its newline. An offset past the end
/// stands at the end.
pub fn line_at(text: &[u8], offset: usize) -> &[u8]
    ensures { result.now ≡ line_text text.now offset }
{
    let at = offset.min(text.len());
    let (before, behind) = text.split_at(at);
    &text[start_of_last(before)..at + first_end(behind)]
}

/// The part of the line that stands before the offset.
pub fn line_up_to(text: &[u8], offset: usize) -> &[u8]
    ensures { result.now ≡ line_before text.now offset }
{
    let before = up_to(text, offset);
    &before[start_of_last(before)..]
}

/// The text before the offset.
pub fn up_to(text: &[u8], offset: usize) -> &[u8]
    ensures { result.now ≡ take offset text.now }
{
    &text[..offset.min(text.len())]
}

/// How many newlines there are.
pub fn newlines(text: &[u8]) -> usize
    ensures count { result ≡ how_many is_newline text.now }
    ensures few { result < 2 ^ 63 }
{
    let mut count = 0;
    for byte in text {
        if *byte == b'\n' {
            count += 1;
        }
    }
    count
}

// Where the last line of the text starts.
fn start_of_last(text: &[u8]) -> usize
    ensures within { result ≤ length text.now }
    ensures line { drop result text.now ≡ reverse (to_newline (reverse text.now)) }
{
    let mut start = text.len();
    while start > 0 {
        if text[start - 1] == b'\n' {
            return start;
        }
        start -= 1;
    }
    start
}

// Where the first line of the text ends.
fn first_end(text: &[u8]) -> usize
    ensures within { result ≤ length text.now }
    ensures line { take result text.now ≡ to_newline text.now }
{
    let mut end = 0;
    for byte in text {
        if *byte == b'\n' {
            return end;
        }
        end += 1;
    }
    end
}
