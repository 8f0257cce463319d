// Texts behind the texts of indices.
ghost use Rattle.std.specs.Prelude.{◌≡◌, ◌<◌, ◌^◌, ◌∷◌, [], cond};
ghost use Rattle.std.specs.Str.{bytes_eq};
ghost use Rattle.base_poly.specs.Plain.{OneEntry, many, degrees};
ghost use Rattle.base_poly.specs.Read.{index_of, plains_of};
ghost use Rattle.poly_text.specs.Text.{index_text, entries_text};
ghost use Rattle.bound_file.specs.Spelling.{tuple_text};
ghost use Rattle.bound_file.specs.Strip.{lent_bytes, stripped, is_at_end};

use base_poly::{Index, Tuple};

// The text behind the word, where it begins with it.
fn strip<'a>(text: Option<&'a [u8]>, word: &[u8]) -> Option<&'a [u8]>
    ensures { lent_bytes result ≡ stripped (lent_bytes text.entry) word.now }
{
    match text {
        Some(text) => text.strip_prefix(word),
        None => None,
    }
}

// The text behind a comma and a space, which do not stand before the first entry.
fn strip_comma<'a>(text: Option<&'a [u8]>, first: bool) -> Option<&'a [u8]>
    ensures { lent_bytes result ≡ cond first (lent_bytes text.entry) (stripped (lent_bytes text.entry) (44 ∷ 32 ∷ [])) }
{
    if first { text } else { strip(text, b", ") }
}

// The text behind that of the index.
#[cycle(strip)]
fn strip_index<'a>(text: Option<&'a [u8]>, index: &Index) -> Option<&'a [u8]>
    ensures { lent_bytes result ≡ stripped (lent_bytes text.entry) (index_text (index_of index.now)) }
{
    match index {
        Index::Unit => strip(text, b"_"),
        Index::Pair(first, second) => {
            let rest = strip_index(strip(text, b"("), first);
            let rest = strip_index(strip(rest, b", "), second);
            strip(rest, b")")
        }
        Index::List(entries) => strip_list(text, entries),
        Index::Opt(None) => strip(text, b"[]"),
        Index::Opt(Some(entry)) => strip_option(text, entry),
    }
}

#[cycle(strip)]
fn strip_option<'a>(text: Option<&'a [u8]>, entry: &Index) -> Option<&'a [u8]>
    ensures { lent_bytes result ≡ stripped (lent_bytes text.entry) (index_text (OneEntry (index_of entry.now))) }
{
    let rest = strip_index(strip(text, b"["), entry);
    strip(rest, b"]")
}

#[cycle(strip)]
fn strip_list<'a>(text: Option<&'a [u8]>, entries: &[Index]) -> Option<&'a [u8]>
    ensures { lent_bytes result ≡ stripped (lent_bytes text.entry) (index_text (many (plains_of entries.now))) }
{
    let rest = strip_entries(strip(text, b"["), entries);
    strip(rest, b"]")
}

#[cycle(strip)]
fn strip_entries<'a>(text: Option<&'a [u8]>, entries: &[Index]) -> Option<&'a [u8]>
    ensures { lent_bytes result ≡ stripped (lent_bytes text.entry) (entries_text (many (plains_of entries.now))) }
{
    let mut first = true;
    let mut rest = text;
    for entry in entries {
        rest = strip_index(strip_comma(rest, first), entry);
        first = false;
    }
    rest
}

fn is_at_end(text: Option<&[u8]>) -> bool
    ensures { result ≡ is_at_end (lent_bytes text.entry) }
{
    match text {
        Some(rest) => rest.is_empty(),
        None => false,
    }
}

/// Whether the tuple is printed so; that of degree 0 is not. The degree fits 32 bits.
pub fn is_text_of(text: &str, tuple: &Tuple) -> bool
    requires { degrees tuple.now < 2 ^ 32 }
    ensures { result ≡ bytes_eq text.now (tuple_text tuple.now) }
{
    if tuple.degree() == 0 {
        return text.is_empty();
    }
    let rest = strip_entries(strip(Some(text.as_bytes()), b"<"), tuple.parts());
    is_at_end(strip(rest, b">"))
}
