// Where a mark stands in bytes.
ghost use Rattle.std.specs.Prelude.{◌≡◌, ◌≤◌, ◌+◌, length, IfSome};
ghost use Rattle.lsp_frames.specs.Marks.{first_place, NoneBefore};

/// The first place at which the mark stands, which is none before the one that is given.
pub fn find_from(bytes: &[u8], mark: &[u8], from: usize) -> Option<usize>
    requires { NoneBefore mark.now from bytes.now }
    ensures place { result ≡ first_place mark.now bytes.now }
    ensures within { IfSome result (λ place. place + length mark.now ≤ length bytes.now) }
{
    let mut place = from;
    while place < bytes.len() {
        if bytes[place..].starts_with(mark) {
            return Some(place);
        }
        place += 1;
    }
    None
}

/// The first place at which the mark stands.
pub fn find(bytes: &[u8], mark: &[u8]) -> Option<usize>
    ensures place { result ≡ first_place mark.now bytes.now }
    ensures within { IfSome result (λ place. place + length mark.now ≤ length bytes.now) }
{
    find_from(bytes, mark, 0)
}
