// The lines of certificates that are refused.
ghost use Rattle.std.specs.Prelude.{◌≡◌, ◌++◌, OnOk, IfOk, string_bytes};
ghost use Rattle.raml_syntax.specs.Read.{program_of};
ghost use Rattle.cost_free.specs.Read.{lists_of};
ghost use Rattle.cert_check.specs.Read.{fault_of};
ghost use Rattle.refusal_text.specs.Certificates as c;
ghost use Rattle.refusal_text.specs.Certificates.{part_text, json_text};

use crate::places::{check_line, push_condition, push_counted};
use crate::task::{Analysed, too_large_line};
use cert_check::CertFault;
use cert_json::{JsonFault, Place};
use constraint_gen::What;
use raml_syntax::{FunId, Program};
use std::alloc::{AllocError, Global};

/// The line of a text that is no certificate.
pub fn json_line(alloc: Global, fault: JsonFault) -> Result<String, AllocError>
    ensures { IfOk result (λ line. string_bytes line ≡ c.json_line fault) }
{
    let mut line = String::from_str(alloc, "raml: certificate: ")?;
    push_json_fault(&mut line, fault)?;
    line.push_str("\n")?;
    Ok(line)
}

// Appends why a text is no certificate.
fn push_json_fault(line: &mut String, fault: JsonFault) -> Result<(), AllocError>
    ensures { OnOk result (string_bytes line.new ≡ string_bytes line.old ++ json_text fault) }
{
    match fault {
        JsonFault::NotJson => line.push_str("not json"),
        JsonFault::Shape { place } => {
            line.push_str("shape in ")?;
            push_part(line, place)
        }
        JsonFault::Number { place } => {
            line.push_str("number in ")?;
            push_part(line, place)
        }
        JsonFault::NoMemory => Ok(()),
    }
}

// Appends a part of a certificate.
fn push_part(line: &mut String, place: Place) -> Result<(), AllocError>
    ensures { OnOk result (string_bytes line.new ≡ string_bytes line.old ++ part_text place) }
{
    match place {
        Place::Head => line.push_str("head"),
        Place::Block(number) => push_counted(line, "block ", number as usize),
    }
}

/// The line of a certificate that fails its check, or whose check leaves 128 bits or exceeds a limit;
/// empty where memory is wanting. The groups are those of the program.
pub fn certificate_line(
    alloc: Global,
    program: &Program,
    groups: &[Vec<FunId>],
    fault: &CertFault,
) -> Result<String, AllocError>
    ensures { IfOk result (λ line. string_bytes line
        ≡ c.certificate_line (program_of program.now) (lists_of groups.now) (fault_of fault.now)) }
{
    match fault {
        CertFault::Shape { block } => shape_line(alloc, *block),
        CertFault::Fails { block, path, index } => {
            fails_line(alloc, *block, path.as_slice(), *index)
        }
        CertFault::Leaves { block, path, index } => {
            check_line(alloc, Analysed::Program, *block, path.as_slice(), *index)
        }
        CertFault::TooLarge { task } => {
            too_large_line(
                alloc,
                Analysed::Program,
                program,
                groups,
                task,
                What::Indices,
            )
        }
        CertFault::NoMemory => Ok(String::new(alloc)),
    }
}

/// A block, or the number of blocks, is not what the schedule has there.
pub fn shape_line(alloc: Global, block: usize) -> Result<String, AllocError>
    ensures { IfOk result (λ line. string_bytes line ≡ c.shape_line block) }
{
    let mut line = String::from_str(alloc, "raml: certificate: block ")?;
    push_counted(&mut line, "", block)?;
    line.push_str(" is not in the schedule\n")?;
    Ok(line)
}

/// The condition of this index at the path in the block is not met.
pub fn fails_line(
    alloc: Global,
    block: usize,
    path: &[u32],
    index: usize,
) -> Result<String, AllocError>
    ensures { IfOk result (λ line. string_bytes line ≡ c.fails_line block path.now index) }
{
    let mut line = String::from_str(alloc, "raml: certificate:")?;
    push_counted(&mut line, " block ", block)?;
    line.push_str(" fails at ")?;
    push_condition(&mut line, path, index)?;
    line.push_str("\n")?;
    Ok(line)
}

/// The vector of the block refutes nothing.
pub fn not_refuted_line(alloc: Global, block: usize) -> Result<String, AllocError>
    ensures { IfOk result (λ line. string_bytes line ≡ c.not_refuted_line block) }
{
    let mut line = String::from_str(alloc, "raml: certificate:")?;
    push_counted(&mut line, " block ", block)?;
    line.push_str(" does not refute\n")?;
    Ok(line)
}
