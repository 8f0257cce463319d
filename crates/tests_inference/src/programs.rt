//! Programs and certificates as texts.
ghost use Rattle.std.specs.Prelude.{◌≡◌};
ghost use Rattle.annot_types.specs.Holds as h;
ghost use Rattle.cost_free.specs.Read.{kind_of};

use annot_types::{Block, Certificate};
use cert_json::{read, write};
use cost_free::{Task, TaskKind};
use raml_parse::parse;
use rules_walk::Earlier;
use share_normal::NormProgram;
use simple_types::{Typed, check};
use std::alloc::Global;
use std::test::Fail;

/// The typed program that a text spells.
pub(crate) fn typed_program(alloc: Global, source: &str) -> Result<Typed, Fail> {
    if source.len() > 2000 {
        return Err(Fail::new("the source is long"));
    }
    let Ok(program) = parse(alloc, source.as_bytes()) else {
        return Err(Fail::new("it is no program"));
    };
    match check(alloc, program) {
        Ok(typed) => Ok(typed),
        Err(_) => Err(Fail::new("it is not typed")),
    }
}

/// The certificate of a text.
pub(crate) fn certificate(alloc: Global, text: &str) -> Result<Certificate, Fail> {
    match read(alloc, text.as_bytes()) {
        Ok(certificate) => Ok(certificate),
        Err(_) => Err(Fail::new("it is no certificate")),
    }
}

/// Writes the text of a certificate.
pub(crate) fn push_certificate(
    alloc: Global,
    out: &mut String,
    certificate: &Certificate,
) -> Result<(), Fail> {
    let bytes = write(alloc, certificate)?;
    match std::str::from_utf8(&bytes) {
        Ok(text) => Ok(out.push_str(text)?),
        Err(_) => Err(Fail::new("it is no text")),
    }
}

/// The budget of a task at degree 1.
pub(crate) fn budget_of(task: &Task) -> u8
    ensures { result ≡ h.budget_of 1 (kind_of task.now.kind) }
{
    match task.kind {
        TaskKind::Free { budget, .. } => budget,
        TaskKind::With(_) => 1,
    }
}

/// The blocks, kept for the tasks behind them. Each function of a group has one argument and a result of one
/// position each.
pub(crate) fn kept(
    alloc: Global,
    program: &NormProgram<'_>,
    blocks: &[Block],
) -> Result<Earlier, Fail> {
    let mut earlier = Earlier::new(alloc, program.functions().len())?;
    for block in blocks {
        let Some(members) = program.groups().list().get(block.task.group as usize) else {
            return Err(Fail::new("there is no such group"));
        };
        earlier.add(alloc, 1, block, members, &[(1, 1)])?;
    }
    Ok(earlier)
}
