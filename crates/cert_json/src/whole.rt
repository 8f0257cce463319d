// Reading a certificate.
ghost use Rattle.std.specs.Prelude.{◌≡◌, ◌<◌, ◌^◌, ◌⊎◌, IfOk, IfErr, IsErrAnd, length, map, cond, MatchResult};
ghost use Rattle.serde_json.specs.View.{view};
ghost use Rattle.serde_json.specs.Errors.{IsMemory};
ghost use Rattle.annot_types.specs.Certificate as c;
ghost use Rattle.annot_types.specs.Read.{certificate_of};
ghost use Rattle.cert_json.specs.Read.{block_of, parts_of};
ghost use Rattle.cert_json.specs.Faults.{Fault};
ghost use Rattle.cert_json.specs.Steps.{read_blocks, read_certificate};
ghost use Rattle.cert_json.specs.Told.{Tells, IsWritten, IsFile, Cause, RefusedBy, IsTold};

use crate::block::block;
use crate::head::read_head;
use crate::likeness::{like_block, like_head};
use annot_types::{Block, Certificate};
use serde_json::{Category, Error, Value};
use std::alloc::{AllocError, AllocFailed, Global};

/// Where a certificate is at fault.
#[derive(Clone, Copy, PartialEq, Eq, Debug)]
pub enum Place {
    Head,
    Block(u32),
}

/// Why a text is no certificate.
#[derive(Clone, Copy, PartialEq, Eq, Debug)]
pub enum JsonFault {
    /// The bytes are no JSON.
    NotJson,
    /// A part has not the form of a certificate's.
    Shape { place: Place },
    /// A string is not a number.
    Number { place: Place },
    NoMemory,
}

impl From<AllocError> for JsonFault {
    ghost use Rattle.cert_json.specs.declared.whole.JsonFault.TheVariants.{NoMemory};
    ghost use Rattle.std.specs.Prelude.{◌≡◌};

    ghost from_gives = { λ _ e. e ≡ NoMemory };

    fn from(_: AllocError) -> Self {
        JsonFault::NoMemory
    }
}

impl<T: Drop> From<AllocFailed<T>> for JsonFault {
    ghost use Rattle.cert_json.specs.declared.whole.JsonFault.TheVariants.{NoMemory};
    ghost use Rattle.std.specs.Prelude.{◌≡◌};

    ghost from_gives = { λ _ e. e ≡ NoMemory };

    fn from(_: AllocFailed<T>) -> Self {
        JsonFault::NoMemory
    }
}

fn fault_at(like: bool, place: Place) -> JsonFault
    ensures { result ≡ cond like (JsonFault.Number place) (JsonFault.Shape place) }
{
    if like {
        JsonFault::Number { place }
    } else {
        JsonFault::Shape { place }
    }
}

fn blocks(alloc: Global, work: bool, items: &[Value]) -> Result<Vec<Block>, JsonFault>
    requires { length items.now < 2 ^ 31 }
    ensures { Tells (λ v. map block_of v.items) result (read_blocks work 0 (map view items.now)) }
{
    let mut found = Vec::new(alloc);
    for (number, item) in items.iter().enumerate() {
        match block(alloc, work, item)? {
            Some(block) => found.push(block)?,
            None => return Err(fault_at(
                like_block(alloc, work, item)?,
                Place::Block(number as u32),
            )),
        }
    }
    Ok(found)
}

fn certificate(alloc: Global, value: &Value) -> Result<Certificate, JsonFault>
    ensures { Tells parts_of result (read_certificate (view value.now)) }
{
    match read_head(alloc, value)? {
        Some((head, items)) => {
            let blocks = blocks(alloc, head.work.is_some(), items)?;
            Ok(Certificate {
                degree: head.degree,
                ticks_scale: head.ticks,
                cells_scale: head.cells,
                work_scale: head.work,
                blocks,
            })
        }
        None => Err(fault_at(like_head(alloc, value)?, Place::Head)),
    }
}

/// The certificate whose JSON the bytes are. Keys may come in any order, white space is accepted, and
/// of a key that stands twice the last value counts.
///
/// The first fault is told: bytes that are no JSON; then, in the head and in one block after the
/// other, first a form that is missed and then a number that is missed.
pub fn read(alloc: Global, bytes: &[u8]) -> Result<Certificate, JsonFault>
    ensures read { IfOk result (λ found. IsFile bytes.now (certificate_of found)) }
    ensures exact { (cert : c.Certificate) → IsFile bytes.now cert
        → MatchResult result (λ found. certificate_of found ≡ cert) (λ e. e ≡ JsonFault.NoMemory) }
    ensures refused { IfErr result (λ e. Cause bytes.now e) }
    ensures faults { (x : Fault) → RefusedBy bytes.now x → IsErrAnd result (IsTold x) }
    ensures back { (cert : c.Certificate) → IsWritten bytes.now cert
        → IfOk result (λ found. certificate_of found ≡ cert) }
{
    match Value::from_slice(alloc, bytes) {
        Ok(value) => certificate(alloc, &value),
        Err(error) => Err(unread(&error)),
    }
}

// Why the bytes give no value.
fn unread(error: &Error) -> JsonFault
    ensures { (IsMemory error.now × (result ≡ JsonFault.NoMemory))
        ⊎ ((IsMemory error.now → ⊥) × (result ≡ JsonFault.NotJson)) }
{
    match error.classify() {
        Category::Memory => JsonFault::NoMemory,
        _ => JsonFault::NotJson,
    }
}
