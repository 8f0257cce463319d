// The digits of numbers.
ghost use Rattle.std.specs.Prelude.{◌≡◌, ◌<ℤ◌, pos, IfSome, true, option_map, unsigned_abs};
ghost use Rattle.std.specs.Str.{all_ascii_digits};
ghost use Rattle.std.specs.Str.Parse.{digits_value};
ghost use Rattle.bound_file.specs.Digits.{is_number};
ghost use Rattle.bound_file.specs.Reading.{in_range};

fn are_digits(bytes: &[u8]) -> bool
    ensures { result ≡ all_ascii_digits bytes.now }
{
    bytes.iter().all(|byte| byte.is_ascii_digit())
}

/// Whether these are one or more digits, the first of them a zero only where it is the only one.
pub fn is_number(bytes: &[u8]) -> bool
    ensures { result ≡ is_number bytes.now }
{
    match bytes {
        [] => false,
        [first, rest @ ..] => (*first != b'0' || rest.is_empty()) && are_digits(bytes),
    }
}

/// The number of these digits, where it is from 1 to 2^127 - 1.
pub fn number(digits: &str) -> Option<i128>
    requires { is_number digits.now ≡ true }
    ensures number { option_map unsigned_abs result ≡ in_range (digits_value 10 digits.now) }
    ensures positive { IfSome result (λ number. pos 0 <ℤ number) }
{
    match digits.parse::<i128>() {
        Ok(number) => (number > 0).then_some(number),
        Err(_) => None,
    }
}
