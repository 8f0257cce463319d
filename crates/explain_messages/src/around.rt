// What stands around a place of a source.
use crate::need::Need;
use crate::needs::Needs;
use crate::word::{Word, Words};
use std::alloc::{AllocError, Global};

/// What stands around a place of a source.
#[derive(Clone, Copy)]
pub struct Around<'a> {
    /// What must come here, where a program begins with the tokens before; `None` where it may end.
    pub due: Option<Need>,
    /// Whether an operand has just ended.
    pub behind_operand: bool,
    /// The last three tokens before the place, the last one last.
    pub third_last: Word<'a>,
    pub second_last: Word<'a>,
    pub last: Word<'a>,
    /// The token at the place, and the two behind it.
    pub here: Word<'a>,
    pub next: Word<'a>,
    pub second_next: Word<'a>,
    /// The bytes before the place, and those from it on.
    pub before: &'a [u8],
    pub rest: &'a [u8],
    /// Whether no line ends between the last token and the place.
    pub is_on_line: bool,
}

impl<'a> Around<'a> {
    /// What stands around the place, of which `text` has the tokens: the source, or what stands before
    /// the place.
    pub fn of(
        alloc: Global,
        source: &'a [u8],
        text: &'a [u8],
        place: usize,
    ) -> Result<Around<'a>, AllocError> {
        let words = Words::of(alloc, text)?;
        let index = words.count_before(place);
        let needs = Needs::behind(alloc, &words, index)?;
        let before = source.get(..place).unwrap_or(source);
        let gap = before.get(words.end_back(index)..).unwrap_or(&[]);
        Ok(Around {
            due: needs.due(),
            behind_operand: needs.behind_operand(),
            third_last: words.back(index, 3),
            second_last: words.back(index, 2),
            last: words.back(index, 1),
            here: words.get(index),
            next: words.get(index.saturating_add(1)),
            second_next: words.get(index.saturating_add(2)),
            before,
            rest: source.get(place..).unwrap_or(&[]),
            is_on_line: !gap.contains(&b'\n'),
        })
    }
}
