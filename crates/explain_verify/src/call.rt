// The call.
ghost use Rattle.std.specs.Prelude.{◌≡◌, ◌≢◌, ◌≤◌, ◌++◌, IfOk, OnOk, IfSome, string_bytes};
ghost use Rattle.cert_json.specs.declared.whole.JsonFault.TheVariants.{NoMemory};
ghost use Rattle.raml_syntax.specs.Tree.{Text};
ghost use Rattle.raml_syntax.specs.Read.{program_of};
ghost use Rattle.annot_types.specs.Read.{certificate_of};
ghost use Rattle.explain_check.specs.Stores.{store_of};
ghost use Rattle.explain_verify.specs.Read.{subject_in};
ghost use Rattle.explain_verify.specs.Verified.{CallIs, ProgramIs, BytesAre, CertificateIs, holds_line, line_text, functions_text};

use crate::fault::push_fault;
use crate::message::Subject;
use crate::outline::Outline;
use crate::verification::Verification;
use annot_types::Certificate;
use bound_infer::verify;
use cert_json::{JsonFault, Place, read};
use explain_check::{Source, push_error, read_file, read_program};
use normal_program::normal_form;
use raml_io::Store;
use std::alloc::{AllocError, Global};
use std::fmt::Write;

/// The limit of a certificate, in bytes.
const MOST_CERTIFICATE_BYTES: u64 = 16_777_216;

/// Verifies that the file `certificate` is a certificate of the program of `file`. That it holds is appended to `text`, and
/// what is wrong to the report: where it does not hold, the place in the source, and of which function and meter.
pub fn verify_certificate<S: Store>(
    alloc: Global,
    store: &mut S,
    file: &str,
    certificate: &str,
    text: &mut String,
    report: &mut String,
) -> Result<Verification, AllocError>
    ensures told { IfOk result (λ end. (shown part : Text)
        × CallIs (store_of (S.holds store.old) (S.faults store.old) (S.faults store.new)) file.now certificate.now end shown part
        × (string_bytes text.new ≡ string_bytes text.old ++ shown)
        × (string_bytes report.new ≡ string_bytes report.old ++ part)) }
    ensures kept { S.holds store.new ≡ S.holds store.old }
    ensures later { (other : Text) → S.faults store.old other ≤ S.faults store.new other }
{
    match read_program(alloc, store, file, report)? {
        Some(source) => {
            let files = Files {
                file,
                source: &source,
                certificate,
            };
            verify_for(alloc, store, files, text, report)
        }
        None => Ok(Verification::Refused),
    }
}

/// The names of both files, and the source of the program.
#[derive(Clone, Copy)]
struct Files<'s> {
    file: &'s str,
    source: &'s Source,
    certificate: &'s str,
}

/// Verifies that the file is a certificate of the program.
fn verify_for<S: Store>(
    alloc: Global,
    store: &mut S,
    files: Files<'_>,
    text: &mut String,
    report: &mut String,
) -> Result<Verification, AllocError>
    ensures told { IfOk result (λ end. (shown part : Text)
        × ProgramIs (store_of (S.holds store.old) (S.faults store.old) (S.faults store.new)) files.entry.file.now
        files.entry.source.now.bytes.items files.entry.certificate.now (program_of files.entry.source.now.typed) end shown part
        × (string_bytes text.new ≡ string_bytes text.old ++ shown)
        × (string_bytes report.new ≡ string_bytes report.old ++ part)) }
    ensures kept { S.holds store.new ≡ S.holds store.old }
    ensures later { (other : Text) → S.faults store.old other ≤ S.faults store.new other }
{
    let name = files.certificate;
    match read_file(alloc, store, name, MOST_CERTIFICATE_BYTES, report)? {
        Some(bytes) => verify_bytes(alloc, &bytes, files, text, report),
        None => Ok(Verification::Refused),
    }
}

/// Verifies that these bytes are a certificate of the program.
fn verify_bytes(
    alloc: Global,
    bytes: &[u8],
    files: Files<'_>,
    text: &mut String,
    report: &mut String,
) -> Result<Verification, AllocError>
    ensures { IfOk result (λ end. (shown part : Text)
        × BytesAre files.entry.file.now files.entry.source.now.bytes.items files.entry.certificate.now
        (program_of files.entry.source.now.typed) bytes.now end shown part
        × (string_bytes text.new ≡ string_bytes text.old ++ shown)
        × (string_bytes report.new ≡ string_bytes report.old ++ part)) }
{
    match read(alloc, bytes) {
        Ok(certificate) => verify_read(alloc, certificate, files, text, report),
        Err(fault) => match no_certificate(fault) {
            Some(why) => {
                push_error(files.certificate, why, report)?;
                Ok(Verification::Refused)
            }
            None => Err(AllocError),
        },
    }
}

/// Why a file is no certificate. None where memory ran out.
fn no_certificate(fault: JsonFault) -> Option<&'static str>
    ensures { IfSome result (λ why. fault ≢ NoMemory) }
{
    match fault {
        JsonFault::NotJson => Some("it is no certificate: it is not JSON"),
        JsonFault::Shape { place: Place::Head } => {
            Some("it is no certificate: it does not begin as one")
        }
        JsonFault::Shape {
            place: Place::Block(_),
        } => Some("it is no certificate: one of its blocks has another form"),
        JsonFault::Number { .. } => Some("it is no certificate: one of its numbers is none"),
        JsonFault::NoMemory => None,
    }
}

/// Verifies a certificate of the program.
fn verify_read(
    alloc: Global,
    certificate: Certificate,
    files: Files<'_>,
    text: &mut String,
    report: &mut String,
) -> Result<Verification, AllocError>
    ensures { IfOk result (λ end. (shown part : Text)
        × CertificateIs files.entry.file.now files.entry.source.now.bytes.items files.entry.certificate.now
        (program_of files.entry.source.now.typed) (certificate_of certificate) end shown part
        × (string_bytes text.new ≡ string_bytes text.old ++ shown)
        × (string_bytes report.new ≡ string_bytes report.old ++ part)) }
{
    let _program = files.source.typed.program();
    let program = normal_form(alloc, &files.source.typed)?;
    let outline = Outline::of(alloc, &certificate)?;
    let subject = Subject {
        file: files.file,
        source: &files.source.bytes,
        certificate: files.certificate,
        program: &program,
        outline: &outline,
    };
    match verify(alloc, &program, certificate) {
        Ok(_) => {
            push_holds(alloc, &subject, text)?;
            Ok(Verification::Holds)
        }
        Err(fault) => push_fault(alloc, &subject, fault, report),
    }
}

/// Appends that it holds, up to which degree and of how many functions.
fn push_holds(alloc: Global, subject: &Subject<'_, '_>, text: &mut String) -> Result<(), AllocError>
    ensures { OnOk result (string_bytes text.new ≡ string_bytes text.old ++ holds_line (subject_in subject.now)) }
{
    let functions = functions_text(alloc, subject.program.functions().len())?;
    push_line(
        subject.certificate,
        subject.file,
        subject.outline.degree,
        functions.as_str(),
        text,
    )
}

fn push_line(
    certificate: &str,
    file: &str,
    degree: u8,
    functions: &str,
    text: &mut String,
) -> Result<(), AllocError>
    ensures { OnOk result (string_bytes text.new ≡ string_bytes text.old
        ++ line_text certificate.now file.now degree functions.now) }
{
    write!(
        text,
        "{certificate} holds of {file}: bounds up to degree {degree} of {functions}\n"
    )
}

/// How many functions there are.
fn functions_text(alloc: Global, count: usize) -> Result<String, AllocError>
    ensures { IfOk result (λ text. string_bytes text ≡ functions_text count) }
{
    if count == 1 {
        String::from_str(alloc, "1 function")
    } else {
        format!(in alloc; "{count} functions")
    }
}
