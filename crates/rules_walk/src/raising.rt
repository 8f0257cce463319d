// Signatures, multiplied in place.
ghost use Rattle.std.specs.Prelude.{◌≡◌, map, option_map};
ghost use Rattle.rules_walk.specs.Read.{signature_of};
ghost use Rattle.rules_walk.specs.Raised.{raised_numbers, raised_signature};

use crate::known::Signature;

// Numbers; a product that leaves 128 bits stands at the greatest number.
fn raise_numbers(numbers: &mut Vec<u128>, factor: u128)
    ensures { numbers.new.items ≡ raised_numbers factor numbers.old.items }
{
    for place in 0..numbers.len() {
        numbers[place] = numbers[place].saturating_mul(factor);
    }
}

fn raise_signature(signature: &mut Signature, factor: u128)
    ensures { signature_of signature.new ≡ raised_signature factor (signature_of signature.old) }
{
    raise_numbers(&mut signature.args, factor);
    raise_numbers(&mut signature.result, factor);
}

fn raise_entry(entry: &mut Option<Signature>, factor: u128)
    ensures { option_map signature_of entry.new ≡ option_map (raised_signature factor) (option_map signature_of entry.old) }
{
    match entry {
        Some(signature) => raise_signature(signature, factor),
        None => {}
    }
}

/// The signatures of a table.
pub fn raise_all(table: &mut Vec<Option<Signature>>, factor: u128)
    ensures { map (option_map signature_of) table.new.items
        ≡ map (option_map (raised_signature factor)) (map (option_map signature_of) table.old.items) }
{
    for place in 0..table.len() {
        raise_entry(&mut table[place], factor);
    }
}
