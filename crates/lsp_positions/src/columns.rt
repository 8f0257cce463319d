// Columns of a line.
ghost use Rattle.std.specs.Prelude.{◌≡◌, ◌≤◌, ◌&&◌, cond, nat_le, length, take};
ghost use Rattle.lsp_positions.specs.Lines.{is_ending, before_ending};
ghost use Rattle.lsp_positions.specs.Columns.{begins_character, units_of, units, at_column};

use crate::position::Encoding;

/// How many code units the bytes have.
pub fn units(encoding: Encoding, bytes: &[u8]) -> usize
    ensures { result ≡ units encoding bytes.now }
{
    let mut count = 0;
    for byte in bytes {
        count += units_of(encoding, *byte);
    }
    count
}

/// The place of a column in a line.
pub fn at_column(encoding: Encoding, line: &[u8], column: usize) -> usize
    ensures place { result ≡ at_column encoding line.now column }
    ensures within { result ≤ length line.now }
{
    let mut last = 0;
    let mut used = 0;
    for place in 0..line.len() {
        last = last_seen(last, place, line[place], used, column);
        used += units_of(encoding, line[place]);
    }
    if used <= column { line.len() } else { last }
}

// The last place that passes, once one place more is seen: this many units stand before it.
fn last_seen(last: usize, place: usize, byte: u8, used: usize, column: usize) -> usize
    ensures last { result ≡ cond (begins_character byte && nat_le used column) place last }
    ensures before { last ≤ place → result ≤ place }
{
    if begins_character(byte) && used <= column {
        place
    } else {
        last
    }
}

/// Where the first line of the bytes ends, before its ending.
pub fn first_end(bytes: &[u8]) -> usize
    ensures within { result ≤ length bytes.now }
    ensures line { take result bytes.now ≡ before_ending bytes.now }
{
    let mut end = 0;
    for byte in bytes {
        if is_ending(*byte) {
            return end;
        }
        end += 1;
    }
    end
}

fn is_ending(byte: u8) -> bool
    ensures { result ≡ is_ending byte }
{
    byte == b'\n' || byte == b'\r'
}

// Whether a character begins with this byte.
fn begins_character(byte: u8) -> bool
    ensures { result ≡ begins_character byte }
{
    !matches!(byte, 0x80..=0xBF)
}

// The code units of the character that begins with this byte, if one does.
fn units_of(encoding: Encoding, byte: u8) -> usize
    ensures count { result ≡ units_of encoding byte }
    ensures few { result ≤ 2 }
{
    match encoding {
        Encoding::Utf8 => 1,
        Encoding::Utf16 => units_of_utf16(byte),
    }
}

fn units_of_utf16(byte: u8) -> usize
    ensures count { result ≡ units_of Encoding.Utf16 byte }
    ensures few { result ≤ 2 }
{
    if !begins_character(byte) {
        0
    } else if byte >= 0xF0 {
        2
    } else {
        1
    }
}
