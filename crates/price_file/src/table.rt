// Tables of prices from bytes.
ghost use Rattle.std.specs.Prelude.{◌≡◌, ◌<◌, ◌^◌, [], Ok, length, IfOk, IfErr};
ghost use Rattle.price_file.specs.Listed.{nothing_listed};
ghost use Rattle.price_file.specs.Read.{prices_of, Reads, Leaves};
ghost use Rattle.raml_syntax.specs.Cut.{cut_at};
ghost use Rattle.price_file.specs.Reading.{first_of, entry_of, with_entry, read_lines};
ghost use Rattle.price_file.specs.Spelling.{Table, lines_of, prices_in, Spells, FirstFault, HasOneAnswer};

use crate::fault::PriceFault;
use crate::line::{cut_line, entry};
use crate::prices::Prices;
use raml_syntax::Pos;

/// The first line of a text, which is not empty, and what stands behind its line feed.
fn first_line<'a>(text: &'a str) -> (&'a str, &'a str)
    ensures cut { (result.0.now, result.1.now) ≡ first_of text.now (cut_at 10 text.now) }
{
    match cut_line(text) {
        Some(parts) => parts,
        None => (text, ""),
    }
}

/// Lists what the line of this number sets.
fn list_line(prices: &mut Prices, number: u32, line: &str) -> Result<(), PriceFault>
    ensures { Leaves result prices.new (with_entry prices.old.listed number (entry_of line.now)) }
{
    let Some((construct, price)) = entry(line) else {
        return Err(PriceFault::Shape { line: number });
    };
    if prices.is_listed(construct) {
        return Err(PriceFault::Twice { line: number });
    }
    prices.list(construct, price);
    Ok(())
}

/// The prices that the lines of a text set.
fn read_text(text: &str) -> Result<Prices, PriceFault>
    requires { length text.now < 2 ^ 31 }
    ensures { Reads result (read_lines (Ok nothing_listed) 0 (lines_of text.now)) }
{
    let mut prices = Prices::none_listed();
    let mut rest = text;
    let mut number = 0;
    while !rest.is_empty() {
        let (line, behind) = first_line(rest);
        number += 1;
        list_line(&mut prices, number, line)?;
        rest = behind;
    }
    Ok(prices)
}

/// The prices that the bytes of a table spell. They are fewer than 2^31.
///
/// # Errors
///
/// The first fault of the bytes.
pub fn read(bytes: &[u8]) -> Result<Prices, PriceFault>
    requires { length bytes.now < 2 ^ 31 }
    ensures table { IfOk result (λ prices. (table : Table) × Spells bytes.now table × (prices_of prices ≡ prices_in table)) }
    ensures fault { IfErr result (FirstFault bytes.now) }
    // so each comes exactly where the bytes have that answer
    ensures one_answer { HasOneAnswer bytes.now }
{
    match std::str::from_utf8(bytes) {
        Ok(text) => read_text(text),
        Err(error) => Err(PriceFault::NotUtf8 {
            at: Pos(error.valid_up_to() as u32),
        }),
    }
}
