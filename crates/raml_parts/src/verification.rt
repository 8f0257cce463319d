// Certificates that are read.
ghost use Rattle.std.specs.Prelude.{◌≡◌, ◌≤◌, ℕ, IfOk, IfErr};
ghost use Rattle.raml_syntax.specs.Tree.{Text};
ghost use Rattle.annot_types.specs.Certificate as a;
ghost use Rattle.annot_types.specs.Read.{certificate_of};
ghost use Rattle.share_normal.specs.Program.{source_in};
ghost use Rattle.rules_plan.specs.Read.{program_in};
ghost use Rattle.bound_infer.specs.Inferred.{IsVerified, VerifyCause};
ghost use Rattle.refusals.specs.Line.{no_names};
ghost use Rattle.refusals.specs.Refusals.{names_in};
ghost use Rattle.raml_promise.specs.Analysis.{CheckRefuses, IsProved};
ghost use Rattle.raml_promise.specs.Outside.{store_of};
ghost use Rattle.raml_parts.specs.Parts.{Before, IsCertificateFile, CertificateRefuses, Refuses};

use crate::analysis::proved;
use crate::file::read_file;
use annot_types::Certificate;
use bound_infer::{Verified, VerifyFault, verify};
use cert_json::read;
use raml_io::Store;
use refusal_text::{Which, not_refuted_line};
use refusals::{CertAnswer, Refusal, Status, check_refusal, json_refusal, overflow, too_large};
use share_normal::NormProgram;
use std::alloc::Global;

/// The certificate that a file is.
pub fn read_certificate<S: Store>(
    alloc: Global,
    store: &mut S,
    file: &str,
) -> Result<Certificate, Refusal>
    ensures ok { (before : Text → ℕ) →
        IfOk result (λ certificate. IsCertificateFile
        (store_of (S.holds store.old) before (S.faults store.new)) file.now (certificate_of certificate)) }
    ensures err { (before : Text → ℕ) → Before before (S.faults store.old) →
        IfErr result (Refuses no_names (CertificateRefuses (store_of (S.holds store.old) before (S.faults store.new)) file.now)) }
    ensures kept { S.holds store.new ≡ S.holds store.old }
    ensures later { (other : Text) → S.faults store.old other ≤ S.faults store.new other }
{
    match read_file(alloc, store, file, Which::Certificate) {
        Ok(bytes) => match read(alloc, &bytes) {
            Ok(certificate) => Ok(certificate),
            Err(fault) => Err(json_refusal(alloc, fault)),
        },
        Err(refusal) => Err(refusal),
    }
}

/// The certificate, where it is verified for the program.
pub fn verified<'p, 'a>(
    alloc: Global,
    program: &'p NormProgram<'a>,
    certificate: Certificate,
) -> Result<Verified<'p, 'a>, Refusal>
    ensures program { IfOk result (λ verified. verified.program ≡ program.now) }
    ensures same { IfOk result (λ verified. verified.certificate ≡ certificate_of certificate) }
    ensures ok { IfOk result (λ verified. IsVerified (program_in program.now) (certificate_of certificate)) }
    ensures proved { IfOk result (λ verified. IsProved (source_in program.now) (program_in program.now) verified.certificate) }
    ensures err { IfErr result (Refuses (names_in program.now) (CheckRefuses (program_in program.now) (certificate_of certificate))) }
{
    match verify(alloc, program, certificate) {
        Ok(verified) => {
            proved(program, &verified);
            Ok(verified)
        }
        Err(fault) => Err(verify_refusal(alloc, program, fault)),
    }
}

// Why a certificate is not verified.
fn verify_refusal(alloc: Global, program: &NormProgram<'_>, fault: VerifyFault) -> Refusal
    ensures { (c : a.Certificate) → VerifyCause (program_in program.now) c fault →
        Refuses (names_in program.now) (CheckRefuses (program_in program.now) c) result }
{
    match fault {
        VerifyFault::Cert(fault) => check_refusal(alloc, program, fault),
        VerifyFault::NotRefuted { block } => {
            let line = not_refuted_line(alloc, block);
            Refusal::told(Status::Certificate(CertAnswer::NotRefuted { block }), line)
        }
        VerifyFault::TooLarge { task, what } => too_large(alloc, program, task, what),
        VerifyFault::Leaves(at) => overflow(alloc, program, at),
        VerifyFault::NoMemory => Refusal::no_memory(),
    }
}
