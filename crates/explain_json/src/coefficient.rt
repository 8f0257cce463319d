// Coefficients as text.
ghost use Rattle.std.specs.Prelude.{◌≡◌, ◌≢◌, ◌++◌, decimal, string_bytes, OnOk};
ghost use Rattle.poly_text.specs.Text.{coefficient_text};

use itoa::Buffer;
use raml_num::gcd;
use std::alloc::AllocError;

/// Appends the quotient in lowest terms.
pub fn push_coefficient(text: &mut String, number: u128, den: u128) -> Result<(), AllocError>
    requires { den ≢ 0 }
    ensures { OnOk result (string_bytes text.new ≡ string_bytes text.old ++ coefficient_text number den) }
{
    let common = gcd(number, den);
    let below = den / common;
    push_number(text, number / common)?;
    if below != 1 {
        text.push_str("/")?;
        push_number(text, below)?;
    }
    Ok(())
}

fn push_number(text: &mut String, number: u128) -> Result<(), AllocError>
    ensures { OnOk result (string_bytes text.new ≡ string_bytes text.old ++ decimal number) }
{
    text.push_str(Buffer::new().format(number))
}
