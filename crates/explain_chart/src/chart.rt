// A chart.
ghost use Rattle.std.specs.Prelude.{IfOk, string_bytes};
ghost use Rattle.explain_chart.specs.Chart.{Draws};
ghost use Rattle.explain_chart.specs.Read.{marks_in};

use crate::escaped::escaped;
use crate::frame::Frame;
use crate::grid::push_grid;
use crate::line::{Knot, knots, push_last, push_line};
use crate::mark::Mark;
use crate::points::push_points;
use crate::style::STYLE;
use explain_text::wrapped;
use std::alloc::{AllocError, Global};
use std::fmt::Write;

/// How many characters the lines below the title have at most.
const COLUMNS: usize = 78;

/// What is drawn. The runs stand by ascending size; their `kind`s need no escapes.
#[derive(Clone, Copy, Debug)]
pub struct Chart<'a> {
    pub title: &'a str,
    /// What is said of the bound, or that there is none.
    pub lead: &'a str,
    /// What the chart shows, for those who do not see it.
    pub description: &'a str,
    /// What the sizes are.
    pub sizes: &'a str,
    /// What the points are.
    pub measured: &'a str,
    /// What the line is.
    pub promised: &'a str,
    pub marks: &'a [Mark<'a>],
}

/// The chart as a text in SVG: a point for each run, and a line through the greatest bound at each size, on logarithmic axes
/// on which zero has a line of its own. It is 600 pixels wide, and the same on each machine.
pub fn draw(alloc: Global, chart: &Chart<'_>) -> Result<String, AllocError>
    ensures { IfOk result (λ text. Draws (marks_in chart.now.marks.now) (string_bytes text)) }
{
    let knots = knots(alloc, chart.marks)?;
    let mut body = String::new(alloc);
    let below = push_lead(alloc, &mut body, chart, knots.is_empty())?;
    push_key(alloc, &mut body, chart, knots.is_empty(), below)?;
    let frame = Frame::below(below.saturating_add(360), chart.marks);
    let sizes = escaped(alloc, chart.sizes)?;
    push_grid(&mut body, frame, &sizes, chart.marks)?;
    push_line(alloc, &mut body, frame, &knots)?;
    let mut svg = opening(alloc, chart, frame.height())?;
    svg.push_str(&body)?;
    push_points(alloc, &mut svg, frame, chart.marks)?;
    let end = ending(alloc, frame, &knots)?;
    svg.push_str(&end)?;
    Ok(svg)
}

/// The beginning, up to the title.
fn opening(alloc: Global, chart: &Chart<'_>, height: u32) -> Result<String, AllocError> {
    let title = escaped(alloc, chart.title)?;
    let description = escaped(alloc, chart.description)?;
    let pixels = height / 10;
    let mut text = String::new(alloc);
    write!(
        text,
        "<svg xmlns=\"http://www.w3.org/2000/svg\" viewBox=\"0 0 6000 {height}\" width=\"600\" height=\"{pixels}\" role=\"img\">\n"
    )?;
    write!(text, "<title>{title}</title>\n<desc>{description}</desc>\n")?;
    text.push_str(STYLE)?;
    write!(
        text,
        "<rect class=\"page\" width=\"6000\" height=\"{height}\"/>\n"
    )?;
    write!(
        text,
        "<text class=\"title ink\" x=\"160\" y=\"280\">{title}</text>\n"
    )?;
    Ok(text)
}

/// Appends what is said of the bound, and tells where the next line stands.
fn push_lead(
    alloc: Global,
    text: &mut String,
    chart: &Chart<'_>,
    is_missing: bool,
) -> Result<u32, AllocError> {
    let lead = escaped(alloc, chart.lead)?;
    let lines = wrapped(alloc, &lead, Some(COLUMNS), 4)?;
    let class = if is_missing { "missing" } else { "promise" };
    let mut y = 480u32;
    for line in lines.lines() {
        write!(
            text,
            "<text class=\"algebra {class}\" x=\"160\" y=\"{y}\" xml:space=\"preserve\">{line}</text>\n"
        )?;
        y = y.saturating_add(180);
    }
    Ok(y.saturating_add(60))
}

/// Appends what line and points are.
fn push_key(
    alloc: Global,
    text: &mut String,
    chart: &Chart<'_>,
    is_missing: bool,
    y: u32,
) -> Result<(), AllocError> {
    let promised = escaped(alloc, chart.promised)?;
    let measured = escaped(alloc, chart.measured)?;
    let middle = y.saturating_sub(40);
    if is_missing {
        write!(
            text,
            "<circle class=\"ring\" cx=\"290\" cy=\"{middle}\" r=\"40\"/><text class=\"missing\" x=\"480\" y=\"{y}\">no bound</text>\n"
        )?;
    } else {
        write!(
            text,
            "<path class=\"bound\" d=\"M160 {middle}h260\"/><text class=\"soft\" x=\"480\" y=\"{y}\">{promised}</text>\n"
        )?;
    }
    write!(
        text,
        "<circle class=\"point\" cx=\"3000\" cy=\"{middle}\" r=\"35\"/><text class=\"soft\" x=\"3100\" y=\"{y}\">{measured}</text>\n"
    )
}

/// What stands behind the points.
fn ending(alloc: Global, frame: Frame, knots: &[Knot]) -> Result<String, AllocError> {
    let mut text = String::new(alloc);
    push_last(&mut text, frame, knots)?;
    text.push_str("</svg>\n")?;
    Ok(text)
}
