// The text of a certificate.
ghost use Rattle.std.specs.Prelude.{◌≡◌, ◌<◌, ◌^◌, ◌++◌, IfOk, OnOk, length, map, codes};
ghost use Rattle.std.specs.Fmt.{signed_decimal};
ghost use Rattle.serde_json.specs.Data.{number, unsigned, string, object, no_members, put as with_member};
ghost use Rattle.serde_json.specs.View.{view, members_view};
ghost use Rattle.cost_free.specs.Read.{kind_of};
ghost use Rattle.annot_types.specs.Read.{certificate_of};
ghost use Rattle.cert_json.specs.Read.{sig_of, hint_of, hints_of, block_of, parts_of, body_of};
ghost use Rattle.cert_json.specs.Fits.{Each, FitsOption};
ghost use Rattle.cert_json.specs.Numbers.{Wide, KindFits, EntryHas, EntriesHave, SigHas, HintHas, HintsHave, BodyHas, BlockHas, ScaleHas};
ghost use Rattle.cert_json.specs.Numbers.{CertificateHas};
ghost use Rattle.cert_json.specs.Told.{text_of, IsWritten, IsComplete, IsFile};
ghost use Rattle.cert_json.specs.Form.{list_json, natural, pair_json, entry_json, entries_json, sig_json, hint_json, hints_json};
ghost use Rattle.cert_json.specs.Form.{block_json, certificate_json, sole_json, meter_text, scale_json, version};
ghost use Rattle.cert_json.specs.Members.{with_free, with_task, with_solved, with_body, with_work, head_members};

use annot_types::{Annot, Block, BlockBody, Certificate, Hint, Sig};
use cost_free::{Meter, TaskKind};
use itoa::Buffer;
use serde_json::{Map, Value, push, put};
use std::alloc::{AllocError, Global};

fn number_json(alloc: Global, number: i128) -> Result<Value, AllocError>
    ensures value { IfOk result (λ v. view v ≡ string (signed_decimal number)) }
    ensures numbers { IfOk result (λ _. Wide number) }
{
    let mut buffer = Buffer::new();
    Value::try_from_str(alloc, buffer.format(number))
}

fn natural_json(number: u32) -> Value
    ensures value { view result ≡ natural number }
    ensures fits { number < 2 ^ 32 }
{
    Value::from(number)
}

fn pair_json(alloc: Global, first: Value, second: Value) -> Result<Value, AllocError>
    ensures { IfOk result (λ v. view v ≡ pair_json (view first) (view second)) }
{
    Ok(Value::Array(vec![in alloc; first, second]?))
}

fn entries_json(alloc: Global, entries: &[(u32, i128)]) -> Result<Value, AllocError>
    ensures value { IfOk result (λ v. view v ≡ entries_json signed_decimal entries.now) }
    ensures numbers { IfOk result (λ _. EntriesHave Wide entries.now) }
{
    let mut items = Vec::new(alloc);
    for (position, number) in entries {
        push(&mut items, entry_json(alloc, *position, *number)?)?;
    }
    Ok(Value::Array(items))
}

fn entry_json(alloc: Global, position: u32, number: i128) -> Result<Value, AllocError>
    ensures value { IfOk result (λ v. view v ≡ entry_json signed_decimal (position, number)) }
    ensures numbers { IfOk result (λ _. EntryHas Wide (position, number)) }
{
    let number = number_json(alloc, number)?;
    pair_json(alloc, natural_json(position), number)
}

fn sig_json(alloc: Global, sig: &Sig) -> Result<Value, AllocError>
    ensures value { IfOk result (λ v. view v ≡ sig_json signed_decimal (sig_of sig.now)) }
    ensures numbers { IfOk result (λ _. SigHas Wide (sig_of sig.now)) }
{
    let args = entries_json(alloc, sig.args.entries())?;
    let result = entries_json(alloc, sig.result.entries())?;
    pair_json(alloc, args, result)
}

fn sigs_json(alloc: Global, sigs: &[Sig]) -> Result<Value, AllocError>
    ensures value { IfOk result (λ v. view v ≡ list_json (map (sig_json signed_decimal) (map sig_of sigs.now))) }
    ensures numbers { IfOk result (λ _. Each (SigHas Wide) (map sig_of sigs.now)) }
{
    let mut items = Vec::new(alloc);
    for sig in sigs {
        push(&mut items, sig_json(alloc, sig)?)?;
    }
    Ok(Value::Array(items))
}

fn annots_json(alloc: Global, annots: &[Annot]) -> Result<Value, AllocError>
    ensures value { IfOk result (λ v. view v ≡ list_json (map (entries_json signed_decimal) annots.now)) }
    ensures numbers { IfOk result (λ _. Each (EntriesHave Wide) annots.now) }
{
    let mut items = Vec::new(alloc);
    for annot in annots {
        push(&mut items, entries_json(alloc, annot.entries())?)?;
    }
    Ok(Value::Array(items))
}

fn hint_json(alloc: Global, hint: &Hint) -> Result<Value, AllocError>
    ensures value { IfOk result (λ v. view v ≡ hint_json signed_decimal (hint_of hint.now)) }
    ensures numbers { IfOk result (λ _. HintHas Wide (hint_of hint.now)) }
{
    match hint {
        Hint::Let(annots) => sole_json("let", annots_json(alloc, annots)?, alloc),
        Hint::Share(annot) => sole_json("share", entries_json(alloc, annot.entries())?, alloc),
        Hint::Call(uses) => sole_json("call", entries_json(alloc, uses)?, alloc),
    }
}

fn sole_json(key: &str, value: Value, alloc: Global) -> Result<Value, AllocError>
    ensures { IfOk result (λ v. view v ≡ sole_json key.now (view value)) }
{
    object_with(Map::new(alloc), key, value, alloc)
}

fn hints_json(alloc: Global, hints: &[Hint]) -> Result<Value, AllocError>
    ensures value { IfOk result (λ v. view v ≡ hints_json signed_decimal (map hint_of hints.now)) }
    ensures numbers { IfOk result (λ _. HintsHave Wide (map hint_of hints.now)) }
{
    let mut items = Vec::new(alloc);
    for hint in hints {
        push(&mut items, hint_json(alloc, hint)?)?;
    }
    Ok(Value::Array(items))
}

fn all_hints_json(alloc: Global, hints: &[Vec<Hint>]) -> Result<Value, AllocError>
    ensures value { IfOk result (λ v. view v ≡ list_json (map (hints_json signed_decimal) (map hints_of hints.now))) }
    ensures numbers { IfOk result (λ _. Each (HintsHave Wide) (map hints_of hints.now)) }
{
    let mut items = Vec::new(alloc);
    for hints in hints {
        push(&mut items, hints_json(alloc, hints)?)?;
    }
    Ok(Value::Array(items))
}

fn meter_text(meter: Meter) -> &'static str
    ensures { result.now ≡ meter_text meter }
{
    match meter {
        Meter::Ticks => "ticks",
        Meter::Cells => "cells",
        Meter::Work => "work",
    }
}

// The members, with one more.
fn with_member(
    mut members: Map<String, Value>,
    key: &str,
    value: Value,
    alloc: Global,
) -> Result<Map<String, Value>, AllocError>
    ensures { IfOk result (λ m. members_view m.entries ≡ with_member key.now (view value) (members_view members.entries)) }
{
    put(&mut members, alloc, key, value)?;
    Ok(members)
}

// The object of these members and one more.
fn object_with(
    members: Map<String, Value>,
    key: &str,
    value: Value,
    alloc: Global,
) -> Result<Value, AllocError>
    ensures { IfOk result (λ v. view v ≡ object (with_member key.now (view value) (members_view members.entries))) }
{
    Ok(Value::Object(with_member(members, key, value, alloc)?))
}

fn put_natural(
    members: &mut Map<String, Value>,
    alloc: Global,
    key: &str,
    number: u32,
) -> Result<(), AllocError>
    ensures { OnOk result (members_view members.new.entries ≡ with_member key.now (natural number) (members_view members.old.entries)) }
{
    put(members, alloc, key, natural_json(number))
}

fn put_text(
    members: &mut Map<String, Value>,
    alloc: Global,
    key: &str,
    text: &str,
) -> Result<(), AllocError>
    ensures { OnOk result (members_view members.new.entries ≡ with_member key.now (string text.now) (members_view members.old.entries)) }
{
    let text = Value::try_from_str(alloc, text)?;
    put(members, alloc, key, text)
}

fn put_free(
    members: &mut Map<String, Value>,
    alloc: Global,
    budget: u8,
    fun: u32,
    target: u32,
) -> Result<(), AllocError>
    ensures value { OnOk result (members_view members.new.entries ≡ with_free budget fun target (members_view members.old.entries)) }
    ensures numbers { OnOk result ((budget < 256) × (fun < 2 ^ 32) × (target < 2 ^ 32)) }
{
    put_natural(members, alloc, "budget", u32::from(budget))?;
    put_natural(members, alloc, "function", fun)?;
    put_text(members, alloc, "kind", "free")?;
    put_natural(members, alloc, "target", target)
}

fn put_task(
    members: &mut Map<String, Value>,
    alloc: Global,
    group: u32,
    kind: TaskKind,
) -> Result<(), AllocError>
    ensures value { OnOk result (members_view members.new.entries ≡ with_task group (kind_of kind) (members_view members.old.entries)) }
    ensures numbers { OnOk result (KindFits (kind_of kind)) }
{
    put_natural(members, alloc, "group", group)?;
    match kind {
        TaskKind::Free {
            budget,
            fun,
            target,
        } => put_free(members, alloc, budget, fun.0, target),
        TaskKind::With(meter) => put_text(members, alloc, "kind", meter_text(meter)),
    }
}

// The members that tell a task.
fn task_members(alloc: Global, group: u32, kind: TaskKind) -> Result<Map<String, Value>, AllocError>
    ensures value { IfOk result (λ m. members_view m.entries ≡ with_task group (kind_of kind) no_members) }
    ensures numbers { IfOk result (λ _. (group < 2 ^ 32) × KindFits (kind_of kind)) }
{
    let mut members = Map::new(alloc);
    put_task(&mut members, alloc, group, kind)?;
    Ok(members)
}

fn solved_json(
    members: Map<String, Value>,
    hints: &[Vec<Hint>],
    sigs: &[Sig],
    alloc: Global,
) -> Result<Value, AllocError>
    ensures value { IfOk result
        (λ v. view v ≡ object (with_solved signed_decimal (map sig_of sigs.now) (map hints_of hints.now) (members_view members.entries))) }
    ensures sigs { IfOk result (λ _. Each (SigHas Wide) (map sig_of sigs.now)) }
    ensures hints { IfOk result (λ _. Each (HintsHave Wide) (map hints_of hints.now)) }
{
    let hints = all_hints_json(alloc, hints)?;
    let members = with_member(members, "hints", hints, alloc)?;
    let sigs = sigs_json(alloc, sigs)?;
    object_with(members, "sigs", sigs, alloc)
}

// A block, of whose object these members tell the task.
fn body_json(
    members: Map<String, Value>,
    body: &BlockBody,
    alloc: Global,
) -> Result<Value, AllocError>
    ensures value { IfOk result (λ v. view v ≡ object (with_body signed_decimal (body_of body.now) (members_view members.entries))) }
    ensures numbers { IfOk result (λ _. BodyHas Wide (body_of body.now)) }
{
    match body {
        BlockBody::Solved { sigs, hints } => solved_json(members, hints, sigs, alloc),
        BlockBody::Refuted { farkas } => {
            object_with(members, "farkas", entries_json(alloc, farkas)?, alloc)
        }
        BlockBody::Calls { fun } => object_with(members, "calls", natural_json(fun.0), alloc),
    }
}

#[tactic(auto, using(crate::proofs::Membered::block_is))]
fn block_json(alloc: Global, block: &Block) -> Result<Value, AllocError>
    ensures value { IfOk result (λ v. view v ≡ block_json signed_decimal (block_of block.now)) }
    ensures numbers { IfOk result (λ _. BlockHas Wide (block_of block.now)) }
{
    let members = task_members(alloc, block.task.group, block.task.kind)?;
    body_json(members, &block.body, alloc)
}

fn blocks_json(alloc: Global, blocks: &[Block]) -> Result<Value, AllocError>
    ensures value { IfOk result (λ v. view v ≡ list_json (map (block_json signed_decimal) (map block_of blocks.now))) }
    ensures numbers { IfOk result (λ _. Each (BlockHas Wide) (map block_of blocks.now)) }
{
    let mut items = Vec::new(alloc);
    for block in blocks {
        push(&mut items, block_json(alloc, block)?)?;
    }
    Ok(Value::Array(items))
}

fn put_number(
    members: &mut Map<String, Value>,
    alloc: Global,
    key: &str,
    number: i128,
) -> Result<(), AllocError>
    ensures value { OnOk result
        (members_view members.new.entries ≡ with_member key.now (string (signed_decimal number)) (members_view members.old.entries)) }
    ensures numbers { OnOk result (Wide number) }
{
    let number = number_json(alloc, number)?;
    put(members, alloc, key, number)
}

fn put_work(
    members: &mut Map<String, Value>,
    alloc: Global,
    work: Option<i128>,
) -> Result<(), AllocError>
    ensures value { OnOk result (members_view members.new.entries ≡ with_work signed_decimal work (members_view members.old.entries)) }
    ensures numbers { OnOk result (FitsOption Wide work) }
{
    match work {
        None => Ok(()),
        Some(work) => put_number(members, alloc, "work", work),
    }
}

#[tactic(auto, using(crate::proofs::Membered::scale_is))]
fn scale_json(
    alloc: Global,
    ticks: i128,
    cells: i128,
    work: Option<i128>,
) -> Result<Value, AllocError>
    ensures value { IfOk result (λ v. view v ≡ scale_json signed_decimal ticks cells work) }
    ensures numbers { IfOk result (λ _. ScaleHas Wide ticks cells work) }
{
    let mut members = Map::new(alloc);
    put_number(&mut members, alloc, "cells", cells)?;
    put_number(&mut members, alloc, "ticks", ticks)?;
    put_work(&mut members, alloc, work)?;
    Ok(Value::Object(members))
}

fn version(work: Option<i128>) -> u8
    ensures { result ≡ version work }
{
    match work {
        None => 1,
        Some(_) => 2,
    }
}

// The members beside the blocks.
fn head_members(alloc: Global, certificate: &Certificate) -> Result<Map<String, Value>, AllocError>
    ensures value { IfOk result (λ m. members_view m.entries ≡ head_members signed_decimal (parts_of certificate.now).head) }
    ensures numbers { IfOk result (λ _. ScaleHas Wide certificate.now.ticks_scale certificate.now.cells_scale certificate.now.work_scale) }
{
    let mut members = Map::new(alloc);
    put_natural(&mut members, alloc, "degree", u32::from(certificate.degree))?;
    let version = version(certificate.work_scale);
    put_natural(&mut members, alloc, "version", u32::from(version))?;
    let scale = scale_json(
        alloc,
        certificate.ticks_scale,
        certificate.cells_scale,
        certificate.work_scale,
    )?;
    with_member(members, "scale", scale, alloc)
}

fn certificate_json(alloc: Global, certificate: &Certificate) -> Result<Value, AllocError>
    ensures value { IfOk result (λ v. view v ≡ certificate_json signed_decimal (parts_of certificate.now)) }
    ensures numbers { IfOk result (λ _. CertificateHas Wide (parts_of certificate.now)) }
{
    let members = head_members(alloc, certificate)?;
    let blocks = blocks_json(alloc, &certificate.blocks)?;
    object_with(members, "blocks", blocks, alloc)
}

/// The text of a certificate: compact, with keys in ascending order.
pub fn write(alloc: Global, certificate: &Certificate) -> Result<Vec<u8>, AllocError>
    ensures text { IfOk result (λ bytes. bytes.items ≡ text_of (certificate_of certificate.now)) }
    ensures written { IfOk result (λ bytes. IsWritten bytes.items (certificate_of certificate.now)) }
    ensures file { IfOk result (λ bytes. IsComplete (certificate_of certificate.now) → length bytes.items < 2 ^ 31 → IsFile (bytes.items ++ codes "\n") (certificate_of certificate.now)) }
{
    certificate_json(alloc, certificate)?.to_vec(alloc)
}
