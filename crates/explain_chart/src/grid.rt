// The axes, their lines and their numbers.
use crate::frame::{Frame, LEFT, RIGHT};
use crate::mark::Mark;
use crate::number::push_round;
use crate::scale::times_10;
use std::alloc::AllocError;
use std::fmt::Write;

/// How far apart the numbers of sizes stand at least.
const APART: u32 = 420;

/// At most so many powers of 10 stand at the axis of costs.
const MOST_POWERS: u32 = 5;

/// Appends the lines of round costs, and both axes; that of sizes has this name.
pub(crate) fn push_grid(
    text: &mut String,
    frame: Frame,
    sizes: &str,
    marks: &[Mark<'_>],
) -> Result<(), AllocError> {
    push_costs(text, frame)?;
    let bottom = frame.bottom;
    write!(
        text,
        "<path class=\"axis\" d=\"M{LEFT} {bottom}H{RIGHT}\"/>\n"
    )?;
    push_sizes(text, frame, marks)?;
    let low = bottom.saturating_add(340);
    write!(
        text,
        "<text class=\"soft\" x=\"{RIGHT}\" y=\"{low}\" text-anchor=\"end\">{sizes}</text>\n"
    )
}

/// Appends a line for each power of 10, or for one in some.
fn push_costs(text: &mut String, frame: Frame) -> Result<(), AllocError> {
    if frame.costs.zero {
        push_cost(text, frame, 0)?;
    }
    let step = powers_in(frame).div_ceil(MOST_POWERS).max(1);
    let mut power = frame.costs.low;
    for place in 0..39u32 {
        if power <= frame.costs.high && place % step == 0 {
            push_cost(text, frame, power)?;
        }
        if power >= frame.costs.high {
            return Ok(());
        }
        power = times_10(power);
    }
    Ok(())
}

/// How many powers of 10 the axis of costs goes through.
fn powers_in(frame: Frame) -> u32 {
    let mut power = frame.costs.low;
    let mut count = 0u32;
    for _ in 0..39 {
        if power < frame.costs.high {
            power = times_10(power);
            count = count.saturating_add(1);
        }
    }
    count
}

/// Appends the line of a cost, with its number.
fn push_cost(text: &mut String, frame: Frame, cost: u128) -> Result<(), AllocError> {
    let y = frame.y(cost);
    let base = y.saturating_add(40);
    let end = LEFT - 80;
    write!(text, "<path class=\"grid\" d=\"M{LEFT} {y}H{RIGHT}\"/>")?;
    write!(
        text,
        "<text class=\"soft\" x=\"{end}\" y=\"{base}\" text-anchor=\"end\">"
    )?;
    push_round(text, cost)?;
    text.push_str("</text>\n")
}

/// Appends a mark for each size, from the last on; a number stands where there is room for it.
fn push_sizes(text: &mut String, frame: Frame, marks: &[Mark<'_>]) -> Result<(), AllocError> {
    let mut free = u32::MAX;
    let mut last = None;
    for mark in marks.iter().rev() {
        if last != Some(mark.size) {
            last = Some(mark.size);
            free = push_size(text, frame, mark.size, free)?;
        }
    }
    Ok(())
}

/// Appends the mark of a size, with its number where that ends before `free`; tells where the next one may end.
fn push_size(text: &mut String, frame: Frame, size: u32, free: u32) -> Result<u32, AllocError> {
    let x = frame.x(size);
    let bottom = frame.bottom;
    write!(text, "<path class=\"axis\" d=\"M{x} {bottom}v40\"/>")?;
    if x > free {
        text.push_str("\n")?;
        return Ok(free);
    }
    let base = bottom.saturating_add(180);
    write!(
        text,
        "<text class=\"soft\" x=\"{x}\" y=\"{base}\" text-anchor=\"middle\">"
    )?;
    push_round(text, u128::from(size))?;
    text.push_str("</text>\n")?;
    Ok(x.saturating_sub(APART))
}
