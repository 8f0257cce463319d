// Reading the head of a certificate.
ghost use Rattle.std.specs.Prelude.{◌≡◌, IfOk, map, codes, Some, option_map};
ghost use Rattle.serde_json.specs.View.{view};
ghost use Rattle.cert_json.specs.Reading.{number_of, natural_of, scale_one, scale_two, scale_of, degree_of, head_of, head_in};
ghost use Rattle.cert_json.specs.Read.{head_and_items};

use crate::reading::{fields, list, number};
use serde_json::Value;
use std::alloc::{AllocError, Global};

// The head of a certificate.
#[derive(Clone, Copy)]
pub struct Head {
    pub degree: u8,
    pub ticks: i128,
    pub cells: i128,
    pub work: Option<i128>,
}

pub fn degree(value: &Value) -> Option<u8>
    ensures { result ≡ degree_of (view value.now) }
{
    let number = value.as_u64()?;
    if number >= 1 && number < 5 {
        Some(number as u8)
    } else {
        None
    }
}

pub fn version(value: &Value) -> Option<u8>
    ensures { result ≡ natural_of 3 (view value.now) }
{
    let number = value.as_u64()?;
    if number < 3 { Some(number as u8) } else { None }
}

fn scale_one(values: &[&Value]) -> Option<(i128, i128, Option<i128>)>
    ensures { result ≡ scale_one number_of (map (λ v. view v.now) values.now) }
{
    match values {
        [cells, ticks] => {
            let cells = number(*cells)?;
            let ticks = number(*ticks)?;
            Some((ticks, cells, None))
        }
        _ => None,
    }
}

fn scale_two(values: &[&Value]) -> Option<(i128, i128, Option<i128>)>
    ensures { result ≡ scale_two number_of (map (λ v. view v.now) values.now) }
{
    match values {
        [cells, ticks, work] => {
            let cells = number(*cells)?;
            let ticks = number(*ticks)?;
            let work = number(*work)?;
            Some((ticks, cells, Some(work)))
        }
        _ => None,
    }
}

fn scale(
    alloc: Global,
    version: u8,
    value: &Value,
) -> Result<Option<(i128, i128, Option<i128>)>, AllocError>
    ensures { IfOk result (λ o. o ≡ scale_of number_of version (view value.now)) }
{
    if version == 1 {
        return match fields(alloc, value, &["cells", "ticks"])? {
            Some(values) => Ok(scale_one(&values)),
            None => Ok(None),
        };
    }
    if version == 2 {
        return match fields(alloc, value, &["cells", "ticks", "work"])? {
            Some(values) => Ok(scale_two(&values)),
            None => Ok(None),
        };
    }
    Ok(None)
}

pub fn read_head<'a>(
    alloc: Global,
    value: &'a Value,
) -> Result<Option<(Head, &'a [Value])>, AllocError>
    ensures { IfOk result (λ o. option_map head_and_items o ≡ head_of number_of (view value.now)) }
{
    match fields(alloc, value, &["blocks", "degree", "scale", "version"])? {
        Some(values) => head_in(alloc, &values),
        None => Ok(None),
    }
}

fn head_in<'a>(
    alloc: Global,
    values: &[&'a Value],
) -> Result<Option<(Head, &'a [Value])>, AllocError>
    ensures { IfOk result (λ o. option_map head_and_items o ≡ head_in number_of (map (λ v. view v.now) values.now)) }
{
    match values {
        [blocks, degree_value, scale_value, version_value] => {
            let Some(degree) = degree(*degree_value) else {
                return Ok(None);
            };
            let Some(version) = version(*version_value) else {
                return Ok(None);
            };
            let Some((ticks, cells, work)) = scale(alloc, version, *scale_value)? else {
                return Ok(None);
            };
            let Some(blocks) = list(*blocks) else {
                return Ok(None);
            };
            Ok(Some((
                Head {
                    degree,
                    ticks,
                    cells,
                    work,
                },
                blocks,
            )))
        }
        _ => Ok(None),
    }
}
