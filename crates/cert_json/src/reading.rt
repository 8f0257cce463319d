// Reading the parts of a certificate.
ghost use Rattle.std.specs.Prelude.{◌≡◌, ◌^◌, IfOk, map, codes, Some, None, option_map, decimal};
ghost use Rattle.serde_json.specs.Data.{number, unsigned, string};
ghost use Rattle.serde_json.specs.View.{view, members_view};
ghost use Rattle.cert_json.specs.Read.{sig_of, hint_of, hints_of};
ghost use Rattle.cert_json.specs.Reading as spec;
ghost use Rattle.cert_json.specs.Reading.{number_of, number_by, texts, natural_of, list_of, text_number, two_of, entry_of, entries_of};
ghost use Rattle.cert_json.specs.Reading.{annot_of, sole_of, fields, taken, is_done, each_of};
ghost use Rattle.serde_json.specs.Find.{as_object};

use annot_types::{Annot, Hint, Sig};
use itoa::Buffer;
use serde_json::Value;
use std::alloc::{AllocError, Global};
use std::collections::btree_map::Iter;

// The number that a text spells: from 1 to 2^127 - 1, with no leading zero.
pub fn number_in(text: &str) -> Option<i128>
    ensures { result ≡ number_of text.now }
{
    match text.parse::<u128>() {
        Ok(number) => number_by(number, text),
        Err(_) => None,
    }
}

// The number, where it is in range and the text is its own.
fn number_by(number: u128, text: &str) -> Option<i128>
    ensures { result ≡ number_by number text.now }
{
    let mut buffer = Buffer::new();
    if number >= 1 && number < 1 << 127 && buffer.format(number) == text {
        Some(number as i128)
    } else {
        None
    }
}

// A number of the analysis.
pub fn number(value: &Value) -> Option<i128>
    ensures { result ≡ text_number number_of (view value.now) }
{
    number_in(value.as_str()?)
}

// A JSON number that fits.
pub fn position(value: &Value) -> Option<u32>
    ensures { result ≡ natural_of (2 ^ 32) (view value.now) }
{
    let number = value.as_u64()?;
    if number < 1 << 32 {
        Some(number as u32)
    } else {
        None
    }
}

// The items of a list, where they are not too many.
pub fn list(value: &Value) -> Option<&[Value]>
    ensures { option_map (λ items. map view items.now) result ≡ list_of (view value.now) }
{
    let items = value.as_array()?;
    if items.len() < 1 << 31 {
        Some(items.as_slice())
    } else {
        None
    }
}

pub fn two(value: &Value) -> Option<(&Value, &Value)>
    ensures { option_map (λ p. (view p.0.now, view p.1.now)) result ≡ two_of (view value.now) }
{
    match list(value)? {
        [first, second] => Some((first, second)),
        _ => None,
    }
}

pub fn entry(value: &Value) -> Option<(u32, i128)>
    ensures { result ≡ entry_of number_of (view value.now) }
{
    let (at, text) = two(value)?;
    let at = position(at)?;
    let number = number(text)?;
    Some((at, number))
}

pub fn entries(alloc: Global, value: &Value) -> Result<Option<Vec<(u32, i128)>>, AllocError>
    ensures { IfOk result (λ o. option_map (λ v. v.items) o ≡ entries_of number_of (view value.now)) }
{
    let Some(items) = list(value) else {
        return Ok(None);
    };
    let mut found = Vec::new(alloc);
    for item in items {
        let Some(entry) = entry(item) else {
            return Ok(None);
        };
        found.push(entry)?;
    }
    Ok(Some(found))
}

pub fn annot(alloc: Global, value: &Value) -> Result<Option<Annot>, AllocError>
    ensures { IfOk result (λ o. o ≡ annot_of number_of (view value.now)) }
{
    match entries(alloc, value)? {
        Some(entries) => Ok(Annot::new(entries)),
        None => Ok(None),
    }
}

// The key and the value of an object with one member.
pub fn sole(value: &Value) -> Option<(&str, &Value)>
    ensures { option_map (λ p. (p.0.now, view p.1.now)) result ≡ sole_of (view value.now) }
{
    let mut members = value.as_object()?.iter();
    let (key, value) = members.next()?;
    if members.next().is_some() {
        return None;
    }
    Some((key.as_str(), value))
}

// The members of an object that are left to be read.
#[derive(Drop)]
struct Unread<'a> {
    left: Iter<'a, String, Value>,
}

impl<'a> Unread<'a> {
    fn of(value: &'a Value) -> Option<Unread<'a>>
        ensures { option_map (λ u. members_view u.left) result ≡ as_object (view value.now) }
    {
        let map = value.as_object()?;
        Some(Unread { left: map.iter() })
    }

    // The value of the next member, where its key is this one.
    fn take(&mut self, key: &str) -> Option<&'a Value>
        ensures { option_map (λ v. (view v.now, members_view self.new.left)) result
            ≡ taken key.now (members_view self.old.left) }
    {
        let (name, value) = self.left.next()?;
        if name.as_str() == key {
            Some(value)
        } else {
            None
        }
    }

    // Whether no member is left.
    fn is_done(mut self) -> bool
        ensures { result ≡ is_done (members_view self.entry.left) }
    {
        self.left.next().is_none()
    }
}

// The values of an object's members, where its keys are these, in order.
pub fn fields<'a>(
    alloc: Global,
    value: &'a Value,
    keys: &[&str],
) -> Result<Option<Vec<&'a Value>>, AllocError>
    ensures { IfOk result (λ o. option_map (λ vs. map (λ v. view v.now) vs.items) o
        ≡ fields (texts keys.now) (view value.now)) }
{
    let Some(mut members) = Unread::of(value) else {
        return Ok(None);
    };
    let mut found = Vec::new(alloc);
    for key in keys {
        let Some(member) = members.take(*key) else {
            return Ok(None);
        };
        found.push(member)?;
    }
    if members.is_done() {
        Ok(Some(found))
    } else {
        Ok(None)
    }
}

// What is in each item of a list.
pub fn sig(alloc: Global, value: &Value) -> Result<Option<Sig>, AllocError>
    ensures { IfOk result (λ o. option_map sig_of o ≡ spec.sig_of number_of (view value.now)) }
{
    let Some((args, result)) = two(value) else {
        return Ok(None);
    };
    let Some(args) = annot(alloc, args)? else {
        return Ok(None);
    };
    let Some(result) = annot(alloc, result)? else {
        return Ok(None);
    };
    Ok(Some(Sig { args, result }))
}

pub fn sigs(alloc: Global, value: &Value) -> Result<Option<Vec<Sig>>, AllocError>
    ensures { IfOk result (λ o. option_map (λ v. map sig_of v.items) o
        ≡ each_of (spec.sig_of number_of) (view value.now)) }
{
    let Some(items) = list(value) else {
        return Ok(None);
    };
    let mut found = Vec::new(alloc);
    for item in items {
        let Some(sig) = sig(alloc, item)? else {
            return Ok(None);
        };
        found.push(sig)?;
    }
    Ok(Some(found))
}

pub fn annots(alloc: Global, value: &Value) -> Result<Option<Vec<Annot>>, AllocError>
    ensures { IfOk result (λ o. option_map (λ v. v.items) o
        ≡ each_of (annot_of number_of) (view value.now)) }
{
    let Some(items) = list(value) else {
        return Ok(None);
    };
    let mut found = Vec::new(alloc);
    for item in items {
        let Some(annot) = annot(alloc, item)? else {
            return Ok(None);
        };
        found.push(annot)?;
    }
    Ok(Some(found))
}

pub fn hint(alloc: Global, value: &Value) -> Result<Option<Hint>, AllocError>
    ensures { IfOk result (λ o. option_map hint_of o ≡ spec.hint_of number_of (view value.now)) }
{
    let Some((key, value)) = sole(value) else {
        return Ok(None);
    };
    hint_by(alloc, key, value)
}

fn hint_by(alloc: Global, key: &str, value: &Value) -> Result<Option<Hint>, AllocError>
    ensures { IfOk result (λ o. option_map hint_of o
        ≡ spec.hint_by number_of key.now (view value.now)) }
{
    match key {
        "let" => Ok(annots(alloc, value)?.map(Hint::Let)),
        "share" => Ok(annot(alloc, value)?.map(Hint::Share)),
        "call" => Ok(entries(alloc, value)?.map(Hint::Call)),
        _ => Ok(None),
    }
}

pub fn hints(alloc: Global, value: &Value) -> Result<Option<Vec<Hint>>, AllocError>
    ensures { IfOk result (λ o. option_map (λ v. map hint_of v.items) o
        ≡ each_of (spec.hint_of number_of) (view value.now)) }
{
    let Some(items) = list(value) else {
        return Ok(None);
    };
    let mut found = Vec::new(alloc);
    for item in items {
        let Some(hint) = hint(alloc, item)? else {
            return Ok(None);
        };
        found.push(hint)?;
    }
    Ok(Some(found))
}

pub fn all_hints(alloc: Global, value: &Value) -> Result<Option<Vec<Vec<Hint>>>, AllocError>
    ensures { IfOk result (λ o. option_map (λ v. map hints_of v.items) o
        ≡ each_of (each_of (spec.hint_of number_of)) (view value.now)) }
{
    let Some(items) = list(value) else {
        return Ok(None);
    };
    let mut found = Vec::new(alloc);
    for item in items {
        let Some(hints) = hints(alloc, item)? else {
            return Ok(None);
        };
        found.push(hints)?;
    }
    Ok(Some(found))
}
