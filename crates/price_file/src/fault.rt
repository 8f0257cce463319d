// Why bytes are no table of prices.
ghost use Rattle.std.specs.Prelude.{◌≡◌, ◌++◌, OnOk, IfOk, string_bytes, decimal};
ghost use Rattle.price_file.specs.Text.{fault_text, price_line};

use itoa::Buffer;
use raml_syntax::Pos;
use std::alloc::{AllocError, Global};

/// Why bytes are no table of prices. Lines are counted from 1.
#[derive(Clone, Copy, PartialEq, Eq, Debug)]
pub enum PriceFault {
    /// No character begins at the byte.
    NotUtf8 { at: Pos },
    /// The line is no name of a construct, one space, and one to seven digits of value 1000000 at most.
    Shape { line: u32 },
    /// A line before this one has the same construct.
    Twice { line: u32 },
}

/// The line that tells the fault: `raml: prices: line 3: shape`.
pub fn fault_line(alloc: Global, fault: PriceFault) -> Result<String, AllocError>
    ensures { IfOk result (λ line. string_bytes line ≡ price_line fault) }
{
    let mut line = String::from_str(alloc, "raml: prices: ")?;
    push_fault(&mut line, fault)?;
    line.push_str("\n")?;
    Ok(line)
}

fn push_fault(text: &mut String, fault: PriceFault) -> Result<(), AllocError>
    ensures { OnOk result (string_bytes text.new ≡ string_bytes text.old ++ fault_text fault) }
{
    match fault {
        PriceFault::NotUtf8 { at } => push_numbered(text, "not utf-8 at ", at.0),
        PriceFault::Shape { line } => {
            push_numbered(text, "line ", line)?;
            text.push_str(": shape")
        }
        PriceFault::Twice { line } => {
            push_numbered(text, "line ", line)?;
            text.push_str(": twice")
        }
    }
}

// Appends a number behind a word.
fn push_numbered(text: &mut String, before: &str, number: u32) -> Result<(), AllocError>
    ensures { OnOk result (string_bytes text.new ≡ string_bytes text.old ++ (before.now ++ decimal number)) }
{
    text.push_str(before)?;
    text.push_str(Buffer::new().format(number))
}
