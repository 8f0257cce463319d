// The commands, each of a program.
ghost use Rattle.std.specs.Prelude.{◌≡◌, ◌≤◌, ◌++◌, ℕ, codes, IfOk, string_bytes};
ghost use Rattle.raml_syntax.specs.Tree.{Text};
ghost use Rattle.raml_syntax.specs.Read.{program_of};
ghost use Rattle.rules_plan.specs.Read.{program_in};
ghost use Rattle.share_normal.specs.Program.{source_in};
ghost use Rattle.stack_compile.specs.Text.{code_text};
ghost use Rattle.annot_types.specs.Certificate as c;
ghost use Rattle.annot_types.specs.Read.{certificate_of};
ghost use Rattle.cert_json.specs.Told.{IsComplete};
ghost use Rattle.refusals.specs.Refusals.{IsWanting, names_in};
ghost use Rattle.raml_promise.specs.Outside.{Sound, store_of};
ghost use Rattle.raml_promise.specs.Analysis.{OfCourse, OfCheck};
ghost use Rattle.raml_promise.specs.Promise.{ListsTypes, ListsCode, PrintsLines, IsTextOf, PrintsCertificate, PrintsPowers, Analyses};
ghost use Rattle.raml_promise.specs.Promise.{Certifies, ShowsPowers, Verifies};
ghost use Rattle.raml_words.specs.declared.request.Rule.TheVariants as rule;
ghost use Rattle.raml_parts.specs.Parts.{Before, IsReady, Gives, PowerRefusal};

use analysis_report::{PowersFault, lines, power_lines};
use annot_types::Certificate;
use bound_infer::Verified;
use cert_json::write;
use normal_program::normal_form;
use raml_io::Store;
use raml_parts::{analyse, read_certificate, verified};
use raml_words::Rule;
use refusal_text::Analysed;
use refusals::{Refusal, Report, Status, powers_refusal};
use report_text::type_lines;
use share_normal::NormProgram;
use simple_types::Typed;
use stack_compile::{compile, print};
use std::alloc::{AllocError, Global};

/// The types of its functions.
pub fn list_types(alloc: Global, typed: &Typed) -> Result<Report, Refusal>
    ensures { Gives (ListsTypes Sound (program_of typed.now)) result }
{
    match type_lines(alloc, typed.program()) {
        Ok(text) => Ok(Report::done(text)),
        Err(_) => Err(Refusal::no_memory()),
    }
}

/// The code of its functions.
pub fn list_code(alloc: Global, typed: &Typed) -> Result<Report, Refusal>
    requires ready { IsReady (program_of typed.now) }
    ensures { Gives (ListsCode Sound (program_of typed.now)) result }
{
    match code_lines(alloc, typed) {
        Ok(text) => Ok(Report::done(text)),
        Err(_) => Err(Refusal::no_memory()),
    }
}

fn code_lines(alloc: Global, typed: &Typed) -> Result<String, AllocError>
    requires ready { IsReady (program_of typed.now) }
    ensures { IfOk result (λ text. string_bytes text ≡ code_text (program_of typed.now)) }
{
    let code = compile(alloc, typed)?;
    print(alloc, &code)
}

/// The lines of the certificate of its course.
pub fn analysis_lines(
    alloc: Global,
    typed: &Typed,
    degree: u8,
    rule: Rule,
) -> Result<Report, Refusal>
    requires ready { IsReady (program_of typed.now) }
    requires least_degree { 1 ≤ degree }
    requires most_degree { degree ≤ 4 }
    ensures { Gives (Analyses Sound degree rule (program_of typed.now)) result }
{
    match normal_form(alloc, typed) {
        Ok(program) => course_lines(alloc, &program, degree, rule),
        Err(_) => Err(Refusal::no_memory()),
    }
}

fn course_lines(
    alloc: Global,
    program: &NormProgram<'_>,
    degree: u8,
    rule: Rule,
) -> Result<Report, Refusal>
    requires least_degree { 1 ≤ degree }
    requires most_degree { degree ≤ 4 }
    ensures { Gives (OfCourse Sound Analysed.Program (source_in program.now) (program_in program.now) degree rule
        (λ c. PrintsLines Sound (source_in program.now) (program_in program.now) c)) result }
{
    match analyse(alloc, Analysed::Program, program, degree, rule) {
        Ok(verified) => line_report(alloc, program, &verified),
        Err(refusal) => Err(refusal),
    }
}

// The lines of a certificate.
fn line_report(
    alloc: Global,
    program: &NormProgram<'_>,
    verified: &Verified<'_, '_>,
) -> Result<Report, Refusal>
    requires { verified.now.program ≡ program.now }
    ensures { Gives (PrintsLines Sound (source_in program.now) (program_in program.now) verified.now.certificate) result }
{
    match lines(alloc, program, verified) {
        Ok(text) => Ok(Report::done(text)),
        Err(_) => Err(Refusal::no_memory()),
    }
}

/// The certificate of its course.
pub fn analysis_certificate(
    alloc: Global,
    typed: &Typed,
    degree: u8,
    rule: Rule,
) -> Result<Report, Refusal>
    requires ready { IsReady (program_of typed.now) }
    requires least_degree { 1 ≤ degree }
    requires most_degree { degree ≤ 4 }
    ensures { Gives (Certifies Sound degree rule (program_of typed.now)) result }
{
    match normal_form(alloc, typed) {
        Ok(program) => course_certificate(alloc, &program, degree, rule),
        Err(_) => Err(Refusal::no_memory()),
    }
}

fn course_certificate(
    alloc: Global,
    program: &NormProgram<'_>,
    degree: u8,
    rule: Rule,
) -> Result<Report, Refusal>
    requires least_degree { 1 ≤ degree }
    requires most_degree { degree ≤ 4 }
    ensures { Gives (OfCourse Sound Analysed.Program (source_in program.now)
        (program_in program.now) degree rule (λ c. PrintsCertificate Sound c)) result }
{
    match analyse(alloc, Analysed::Program, program, degree, rule) {
        Ok(verified) => certificate_report(alloc, verified.certificate()),
        Err(refusal) => Err(refusal),
    }
}

// The text of a certificate, and a line feed.
fn certificate_report(alloc: Global, certificate: &Certificate) -> Result<Report, Refusal>
    requires { IsComplete (certificate_of certificate.now) }
    ensures { Gives (PrintsCertificate Sound (certificate_of certificate.now)) result }
{
    match certificate_text(alloc, certificate) {
        Ok(text) => Ok(Report {
            text,
            status: Status::Done,
        }),
        Err(_) => Err(Refusal::no_memory()),
    }
}

fn certificate_text(alloc: Global, certificate: &Certificate) -> Result<Vec<u8>, AllocError>
    requires { IsComplete (certificate_of certificate.now) }
    ensures { IfOk result (λ text. IsTextOf (certificate_of certificate.now) text.items) }
{
    let mut bytes = write(alloc, certificate)?;
    bytes.push(b'\n')?;
    Ok(bytes)
}

/// The bounds of flat functions in the certificate of its course, as powers.
pub fn analysis_powers(alloc: Global, typed: &Typed, degree: u8) -> Result<Report, Refusal>
    requires ready { IsReady (program_of typed.now) }
    requires least_degree { 1 ≤ degree }
    requires most_degree { degree ≤ 4 }
    ensures { Gives (ShowsPowers Sound degree (program_of typed.now)) result }
{
    match normal_form(alloc, typed) {
        Ok(program) => course_powers(alloc, &program, degree),
        Err(_) => Err(Refusal::no_memory()),
    }
}

fn course_powers(alloc: Global, program: &NormProgram<'_>, degree: u8) -> Result<Report, Refusal>
    requires least_degree { 1 ≤ degree }
    requires most_degree { degree ≤ 4 }
    ensures { Gives (OfCourse Sound Analysed.Program (source_in program.now) (program_in program.now) degree rule.Least
        (PrintsPowers Sound (source_in program.now) (program_in program.now))) result }
{
    match analyse(alloc, Analysed::Program, program, degree, Rule::Least) {
        Ok(verified) => power_report(alloc, program, &verified),
        Err(refusal) => Err(refusal),
    }
}

fn power_report(
    alloc: Global,
    program: &NormProgram<'_>,
    verified: &Verified<'_, '_>,
) -> Result<Report, Refusal>
    requires { verified.now.program ≡ program.now }
    ensures { Gives (PrintsPowers Sound (source_in program.now) (program_in program.now) verified.now.certificate) result }
{
    match power_lines(alloc, program, verified) {
        Ok(text) => Ok(Report::done(text)),
        Err(fault) => Err(power_refusal(alloc, program, fault)),
    }
}

fn power_refusal(alloc: Global, program: &NormProgram<'_>, fault: PowersFault) -> Refusal
    ensures { PowerRefusal (names_in program.now) fault result }
{
    match fault {
        PowersFault::Leaves { fun, meter } => powers_refusal(alloc, program, fun, meter),
        PowersFault::NoMemory => Refusal::no_memory(),
    }
}

/// The lines of the certificate in a file.
pub fn verification<S: Store>(
    alloc: Global,
    store: &mut S,
    typed: &Typed,
    file: &str,
) -> Result<Report, Refusal>
    requires ready { IsReady (program_of typed.now) }
    ensures gives { (before : Text → ℕ) → Before before (S.faults store.old) →
        Gives (Verifies Sound (store_of (S.holds store.old) before (S.faults store.new)) file.now (program_of typed.now)) result }
    ensures kept { S.holds store.new ≡ S.holds store.old }
    ensures later { (other : Text) → S.faults store.old other ≤ S.faults store.new other }
{
    match read_certificate(alloc, store, file) {
        Ok(certificate) => match normal_form(alloc, typed) {
            Ok(program) => verified_lines(alloc, &program, certificate),
            Err(_) => Err(Refusal::no_memory()),
        },
        Err(refusal) => Err(refusal),
    }
}

fn verified_lines(
    alloc: Global,
    program: &NormProgram<'_>,
    certificate: Certificate,
) -> Result<Report, Refusal>
    ensures { Gives (OfCheck Sound (source_in program.now) (program_in program.now) (certificate_of certificate)
        (PrintsLines Sound (source_in program.now) (program_in program.now) (certificate_of certificate))) result }
{
    match verified(alloc, program, certificate) {
        Ok(verified) => line_report(alloc, program, &verified),
        Err(refusal) => Err(refusal),
    }
}
