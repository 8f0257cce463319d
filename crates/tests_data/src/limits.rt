// Heights, cells and texts on both sides of their limits.
use crate::shown::shown_of;
use crate::types::{push_repeated, repeated};
use std::alloc::Global;
use std::process::Abort;
use std::test::Fail;

// A form inside itself: what stands before its part, and behind it. The word makes the form's type of
// that of its part.
#[derive(Clone, Copy)]
struct Nested<'a> {
    front: &'a str,
    inmost: &'a str,
    back: &'a str,
    inmost_type: &'a str,
    word: &'a str,
}

// The words of the type of so many forms.
fn words_of(alloc: Global, nested: &Nested<'_>, depth: usize) -> Result<String, Fail> {
    let mut words = repeated(alloc, nested.inmost_type, 1)?;
    push_repeated(&mut words, nested.word, depth)?;
    Ok(words)
}

fn data_of(alloc: Global, nested: &Nested<'_>, depth: usize) -> Result<String, Fail> {
    let mut data = repeated(alloc, nested.front, depth)?;
    data.push_str(nested.inmost)?;
    push_repeated(&mut data, nested.back, depth)?;
    Ok(data)
}

// So many forms, printed again or refused.
fn shown_at(alloc: Global, nested: &Nested<'_>, data: &str, depth: usize) -> Result<String, Fail> {
    let words = words_of(alloc, nested, depth)?;
    shown_of(alloc, &words, data)
}

// Whether so many forms are printed as they are read.
fn is_accepted(alloc: Global, nested: &Nested<'_>, depth: usize) -> Result<bool, Fail> {
    let data = data_of(alloc, nested, depth)?;
    Ok(shown_at(alloc, nested, &data, depth)? == data)
}

// What is told of so many forms.
fn refused_at(alloc: Global, nested: &Nested<'_>, depth: usize) -> Result<String, Fail> {
    let data = data_of(alloc, nested, depth)?;
    shown_at(alloc, nested, &data, depth)
}

// So many forms are accepted, and with one more there is this fault.
fn compare_limit(
    rt: &impl Abort,
    alloc: Global,
    nested: &Nested<'_>,
    depth: usize,
    fault: &str,
) -> Result<(), Fail> {
    assert!(rt; depth < 1000);
    assert!(rt; is_accepted(alloc, nested, depth)?, "before {fault}");
    assert_eq!(rt; refused_at(alloc, nested, depth + 1)?.as_str(), fault);
    Ok(())
}

// What stands before the part, the inmost, what stands behind it, the type of the inmost, and the word;
// how many forms are accepted, and what is told of one more.
const HIGHEST: [(&str, &str, &str, &str, &str, usize, &str); 7] = [
    (
        "[",
        "",
        "]",
        "int ",
        "list ",
        400,
        "TooDeep { at: Pos(400) }",
    ),
    (
        "[",
        "5",
        "]",
        "int ",
        "list ",
        399,
        "TooDeep { at: Pos(400) }",
    ),
    (
        "some(",
        "5",
        ")",
        "int ",
        "option ",
        399,
        "TooDeep { at: Pos(1995) }",
    ),
    (
        "some(",
        "none",
        ")",
        "int option ",
        "option ",
        399,
        "TooDeep { at: Pos(1995) }",
    ),
    (
        "node(0, ",
        "leaf",
        ", leaf)",
        "int tree ",
        "",
        399,
        "TooDeep { at: Pos(3192) }",
    ),
    (
        "node(0, leaf, ",
        "leaf",
        ")",
        "int tree ",
        "",
        399,
        "TooDeep { at: Pos(5586) }",
    ),
    (
        "(",
        "0",
        ", 0)",
        "int ",
        "int pair ",
        399,
        "TooDeep { at: Pos(0) }",
    ),
];

#[test]
fn the_highest_values(rt: HostRuntime) -> Result<(), Fail> {
    for (front, inmost, back, inmost_type, word, depth, fault) in &HIGHEST {
        let nested = Nested {
            front: *front,
            inmost: *inmost,
            back: *back,
            inmost_type: *inmost_type,
            word: *word,
        };
        compare_limit(&rt, rt.alloc(), &nested, *depth, *fault)?;
    }
    Ok(())
}

// A word behind a pair of 400 pairs, which is too high for any data; data of this type; and what is shown.
const HIGH_TYPES: [(&str, &str, &str); 13] = [
    ("", "7", "Shape { at: Pos(0) }"),
    ("", "", "Shape { at: Pos(0) }"),
    ("", " (", "TooDeep { at: Pos(1) }"),
    ("tree", "leaf", "leaf"),
    ("tree", "node(", "TooDeep { at: Pos(0) }"),
    ("tree", "some(", "Shape { at: Pos(0) }"),
    ("option", "none", "none"),
    ("option", "some(", "TooDeep { at: Pos(0) }"),
    ("list", "[]", "[]"),
    ("list", "[(", "TooDeep { at: Pos(1) }"),
    ("list", "[0", "Shape { at: Pos(1) }"),
    ("int", "7", "Shape { at: Pos(0) }"),
    ("int", "(", "TooDeep { at: Pos(0) }"),
];

// The words of 400 pairs in each other, and this word.
fn high_words(alloc: Global, word: &str) -> Result<String, Fail> {
    let mut words = repeated(alloc, "int ", 1)?;
    push_repeated(&mut words, "int pair ", 400)?;
    words.push_str(word)?;
    Ok(words)
}

// Data of this type, printed again or refused.
fn shown_high(alloc: Global, word: &str, data: &str) -> Result<String, Fail> {
    let words = high_words(alloc, word)?;
    shown_of(alloc, &words, data)
}

#[test]
fn types_of_high_values(rt: HostRuntime) -> Result<(), Fail> {
    for (word, data, want) in &HIGH_TYPES {
        let found = shown_high(rt.alloc(), *word, *data)?;
        assert_eq!(rt; found.as_str(), *want, "at {data}");
    }
    Ok(())
}

// A list of as many zeros and one more.
fn zeros(alloc: Global, count: usize) -> Result<String, Fail> {
    let mut data = repeated(alloc, "[", 1)?;
    push_repeated(&mut data, "0,", count)?;
    data.push_str("0]")?;
    Ok(data)
}

// What is shown of such a list.
fn shown_zeros(alloc: Global, count: usize) -> Result<String, Fail> {
    let data = zeros(alloc, count)?;
    shown_of(alloc, "int list", &data)
}

#[test]
fn the_most_cells(rt: HostRuntime) -> Result<(), Fail> {
    assert!(rt; shown_zeros(rt.alloc(), 1048575)?.len() == 3145728);
    assert_eq!(rt; shown_zeros(rt.alloc(), 1048576)?.as_str(), "TooManyCells");
    Ok(())
}

// A list whose text has as many bytes beside its last element as 2 ^ 24 but 14.
fn long_list(alloc: Global, last: &str) -> Result<String, Fail> {
    let mut data = repeated(alloc, "[", 1)?;
    push_repeated(&mut data, "-9223372036854775808, ", 762600)?;
    data.push_str(last)?;
    data.push_str("]")?;
    Ok(data)
}

// How long what is shown of such a list is, and whether it is the list.
fn printed_long(alloc: Global, last: &str) -> Result<(usize, bool), Fail> {
    let data = long_list(alloc, last)?;
    let found = shown_of(alloc, "int list", &data)?;
    Ok((found.len(), found == data))
}

// What is told of such a list.
fn refused_long(alloc: Global, last: &str) -> Result<String, Fail> {
    let data = long_list(alloc, last)?;
    shown_of(alloc, "int list", &data)
}

#[test]
fn the_longest_text(rt: HostRuntime) -> Result<(), Fail> {
    let printed = printed_long(rt.alloc(), "12345678901234")?;
    assert_eq!(rt; printed, (16777216, true));
    assert_eq!(rt;
        refused_long(rt.alloc(), "123456789012345")?.as_str(),
        "too long"
    );
    Ok(())
}
