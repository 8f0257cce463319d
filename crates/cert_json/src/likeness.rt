// Whether a value has the form of a part of a certificate, where any text may stand for a number.
ghost use Rattle.std.specs.Prelude.{◌≡◌, IfOk, map};
ghost use Rattle.std.specs.List.{list_all};
ghost use Rattle.serde_json.specs.View.{view};
ghost use Rattle.cert_json.specs.Likeness.{like_entry, like_annot_from, like_annot, like_entries, like_sig, like_hint, like_hint_by};
ghost use Rattle.cert_json.specs.Likeness.{like_hints, like_all, like_solved, position_in, like_piece, like_block, like_scale_one};
ghost use Rattle.cert_json.specs.Likeness.{like_scale_two, like_scale, like_head_in, like_head};
ghost use Rattle.cert_json.specs.ReadPieces.{piece_of};

use crate::head::{degree, version};
use crate::pieces::{Piece, block_pieces};
use crate::reading::{fields, list, position, sole, two};
use serde_json::Value;
use std::alloc::{AllocError, Global};

fn like_entry(value: &Value) -> bool
    ensures { result ≡ like_entry (view value.now) }
{
    match two(value) {
        Some((at, text)) => position(at).is_some() && text.is_string(),
        None => false,
    }
}

pub fn like_entries(value: &Value) -> bool
    ensures { result ≡ like_entries (view value.now) }
{
    match list(value) {
        Some(items) => each_like_entry(items),
        None => false,
    }
}

fn position_in(value: &Value) -> Option<u32>
    ensures { result ≡ position_in (view value.now) }
{
    let (at, text) = two(value)?;
    let at = position(at)?;
    if text.is_string() { Some(at) } else { None }
}

fn ascends(items: &[Value]) -> bool
    ensures { result ≡ like_annot_from 0 (map view items.now) }
{
    let mut least: u64 = 0;
    for item in items {
        match position_in(item) {
            Some(at) if u64::from(at) >= least => least = u64::from(at) + 1,
            _ => return false,
        }
    }
    true
}

fn like_annot(value: &Value) -> bool
    ensures { result ≡ like_annot (view value.now) }
{
    match list(value) {
        Some(items) => ascends(items),
        None => false,
    }
}

fn like_sig(value: &Value) -> bool
    ensures { result ≡ like_sig (view value.now) }
{
    match two(value) {
        Some((args, result)) => like_annot(args) && like_annot(result),
        None => false,
    }
}

fn like_annots(value: &Value) -> bool
    ensures { result ≡ like_all like_annot (view value.now) }
{
    match list(value) {
        Some(items) => each_like_annot(items),
        None => false,
    }
}

fn like_hint(value: &Value) -> bool
    ensures { result ≡ like_hint (view value.now) }
{
    match sole(value) {
        Some((key, value)) => like_hint_by(key, value),
        None => false,
    }
}

fn like_hint_by(key: &str, value: &Value) -> bool
    ensures { result ≡ like_hint_by key.now (view value.now) }
{
    match key {
        "let" => like_annots(value),
        "share" => like_annot(value),
        "call" => like_entries(value),
        _ => false,
    }
}

fn like_hints(value: &Value) -> bool
    ensures { result ≡ like_all like_hint (view value.now) }
{
    match list(value) {
        Some(items) => each_like_hint(items),
        None => false,
    }
}

fn like_all_hints(value: &Value) -> bool
    ensures { result ≡ like_all like_hints (view value.now) }
{
    match list(value) {
        Some(items) => each_like_hints(items),
        None => false,
    }
}

fn like_sigs(value: &Value) -> bool
    ensures { result ≡ like_all like_sig (view value.now) }
{
    match list(value) {
        Some(items) => each_like_sig(items),
        None => false,
    }
}

fn like_solved(hints: &Value, sigs: &Value) -> bool
    ensures { result ≡ like_solved (view hints.now) (view sigs.now) }
{
    like_all_hints(hints) && like_sigs(sigs)
}

fn each_like_entry(items: &[Value]) -> bool
    ensures { result ≡ list_all like_entry (map view items.now) }
{
    for item in items {
        if !like_entry(item) {
            return false;
        }
    }
    true
}

fn each_like_annot(items: &[Value]) -> bool
    ensures { result ≡ list_all like_annot (map view items.now) }
{
    for item in items {
        if !like_annot(item) {
            return false;
        }
    }
    true
}

fn each_like_hint(items: &[Value]) -> bool
    ensures { result ≡ list_all like_hint (map view items.now) }
{
    for item in items {
        if !like_hint(item) {
            return false;
        }
    }
    true
}

fn each_like_hints(items: &[Value]) -> bool
    ensures { result ≡ list_all like_hints (map view items.now) }
{
    for item in items {
        if !like_hints(item) {
            return false;
        }
    }
    true
}

fn each_like_sig(items: &[Value]) -> bool
    ensures { result ≡ list_all like_sig (map view items.now) }
{
    for item in items {
        if !like_sig(item) {
            return false;
        }
    }
    true
}

fn like_piece<'a>(piece: Piece<'a>) -> bool
    ensures { result ≡ like_piece (piece_of piece.entry) }
{
    match piece {
        Piece::Solved { hints, sigs } => like_solved(hints, sigs),
        Piece::Refuted { farkas } => like_entries(farkas),
        Piece::Calls { fun } => position(fun).is_some(),
    }
}

// Whether the value has the form of a block.
pub fn like_block(alloc: Global, work: bool, value: &Value) -> Result<bool, AllocError>
    ensures { IfOk result (λ like. like ≡ like_block work (view value.now)) }
{
    match block_pieces(alloc, work, value)? {
        Some(pieces) => Ok(like_piece(pieces.piece)),
        None => Ok(false),
    }
}

fn like_scale_one(values: &[&Value]) -> bool
    ensures { result ≡ like_scale_one (map (λ v. view v.now) values.now) }
{
    match values {
        [cells, ticks] => cells.is_string() && ticks.is_string(),
        _ => false,
    }
}

fn like_scale_two(values: &[&Value]) -> bool
    ensures { result ≡ like_scale_two (map (λ v. view v.now) values.now) }
{
    match values {
        [cells, ticks, work] => cells.is_string() && (ticks.is_string() && work.is_string()),
        _ => false,
    }
}

fn like_scale(alloc: Global, value: &Value, version: u8) -> Result<bool, AllocError>
    ensures { IfOk result (λ like. like ≡ like_scale (view value.now) version) }
{
    if version == 1 {
        return match fields(alloc, value, &["cells", "ticks"])? {
            Some(values) => Ok(like_scale_one(&values)),
            None => Ok(false),
        };
    }
    if version == 2 {
        return match fields(alloc, value, &["cells", "ticks", "work"])? {
            Some(values) => Ok(like_scale_two(&values)),
            None => Ok(false),
        };
    }
    Ok(false)
}

fn like_head_in(alloc: Global, values: &[&Value]) -> Result<bool, AllocError>
    ensures { IfOk result (λ like. like ≡ like_head_in (map (λ v. view v.now) values.now)) }
{
    match values {
        [blocks, degree_value, scale, version_value] => {
            if degree(*degree_value).is_none() {
                return Ok(false);
            }
            match version(*version_value) {
                Some(version) => {
                    let like = like_scale(alloc, *scale, version)?;
                    Ok(like && list(*blocks).is_some())
                }
                None => Ok(false),
            }
        }
        _ => Ok(false),
    }
}

// Whether the value has the form of a head, with some list of blocks.
pub fn like_head(alloc: Global, value: &Value) -> Result<bool, AllocError>
    ensures { IfOk result (λ like. like ≡ like_head (view value.now)) }
{
    match fields(alloc, value, &["blocks", "degree", "scale", "version"])? {
        Some(values) => like_head_in(alloc, &values),
        None => Ok(false),
    }
}
