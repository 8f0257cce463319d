// The verdicts of declared bounds.
ghost use Rattle.std.specs.Prelude.{◌≡◌, ◌<◌, ◌^◌, ◌++◌, ℕ, ℤ, suc, true, codes, List, length, slice_get, Option, Some, OnOk, IfOk, IfErr};
ghost use Rattle.std.specs.Prelude.{string_bytes};
ghost use Rattle.raml_syntax.specs.Read.{program_of};
ghost use Rattle.share_normal.specs.Program.{source_in};
ghost use Rattle.rules_plan.specs.Read.{program_in};
ghost use Rattle.annot_types.specs.Certificate.{has_work};
ghost use Rattle.simplex.specs.Choosing.{IsChooser};
ghost use Rattle.simplex_checked.specs.Choosing.{AnswersBy, AnswersByOne};
ghost use Rattle.simplex_checked.specs.Rules.{least_pick};
ghost use Rattle.report_text.specs.Names.{meter_text};
ghost use Rattle.bound_file.specs.Read.{line_of};
ghost use Rattle.bound_contract.specs.Asked.{MayBeAsked};
ghost use Rattle.bound_contract.specs.Read.{decided_of};
ghost use Rattle.contract_report.specs.Verdicts.{verdict_line, AreVerdictLines};
ghost use Rattle.contract_report.specs.Refused.{AllLinesClear};
ghost use Rattle.contract_report.specs.Told.{VerdictsRefused};
ghost use Rattle.contract_report.specs.Steps.{verdict_of, fault_at, AllCanBeAsked, ClearBelow, HasVerdictLine};
ghost use Rattle.bound_file.specs.Lines.{Line};

use crate::fault::VerdictsFault;
use bound_contract::laws::owns_are_there;
use bound_contract::{DecideFault, Decider, Decision};
use bound_file::{DeclLine, Declared};
use cert_check::Checked;
use cost_free::Meter;
use frac128::Frac;
use raml_syntax::Program;
use report_text::{meter_name, name_at, push_calls_line};
use simplex::Chooser;
use simplex_checked::least_column;
use std::alloc::{AllocError, Global};

/// Which of the bounds that a file declares are kept: a line for each, in the order of the file. The least
/// column of positive gain enters.
///
/// # Errors
///
/// The first line with which a system has more than 2000 rows, or where a number leaves 128 bits.
pub fn verdict_lines(
    alloc: Global,
    checked: &Checked<'_, '_>,
    declared: &Declared,
) -> Result<String, VerdictsFault>
    requires work { has_work checked.now.certificate ≡ true }
    requires degree { declared.now.degree ≡ checked.now.certificate.degree }
    requires few { length declared.now.lines < 2 ^ 31 }
    requires asked { (number : ℕ) (line : Line) → slice_get declared.now.lines number ≡ Some line → MayBeAsked checked.now line }
    ensures lines { IfOk result (λ text.
        AreVerdictLines (source_in checked.now.program)
        (program_in checked.now.program) checked.now.certificate declared.now.lines (string_bytes text)) }
    ensures clear { OnOk result (AllLinesClear (program_in checked.now.program) checked.now.certificate least_pick declared.now.lines) }
    ensures fault { IfErr result (VerdictsRefused (program_in checked.now.program) checked.now.certificate least_pick declared.now.lines) }
{
    owns_are_there();
    let _certificate = checked.certificate();
    let program = checked.program();
    let _groups = program.groups();
    let chooser = Chooser::new(|gains: &[Frac]| least_column(gains));
    each_line(alloc, checked, program.source(), declared, &chooser)
}

// By any rule of the entering column.
fn each_line<F: Fn(&[Frac]) -> Option<usize>>(
    alloc: Global,
    checked: &Checked<'_, '_>,
    source: &Program,
    declared: &Declared,
    chooser: &Chooser<F>,
) -> Result<String, VerdictsFault>
    requires callable { F.IsAlwaysCallable chooser.now }
    requires chooses { IsChooser F.Fn chooser.now }
    requires one { AnswersByOne F.Fn chooser.now }
    requires source { program_of source.now ≡ source_in checked.now.program }
    requires work { has_work checked.now.certificate ≡ true }
    requires degree { declared.now.degree ≡ checked.now.certificate.degree }
    requires few { length declared.now.lines < 2 ^ 31 }
    requires asked { AllCanBeAsked checked.now declared.now.lines }
    ensures lines { IfOk result (λ text.
        AreVerdictLines (source_in checked.now.program)
        (program_in checked.now.program) checked.now.certificate declared.now.lines (string_bytes text)) }
    ensures clear { OnOk result ((pick : List ℤ → ℤ → Option ℕ) → AnswersBy F.Fn chooser.now pick →
        AllLinesClear (program_in checked.now.program) checked.now.certificate pick declared.now.lines) }
    ensures fault { IfErr result (λ fault. (pick : List ℤ → ℤ → Option ℕ) → AnswersBy F.Fn chooser.now pick →
        VerdictsRefused (program_in checked.now.program) checked.now.certificate pick declared.now.lines fault) }
{
    let mut text = String::new(alloc);
    let mut decider = Decider::new(checked);
    for number in 0..declared.lines().len() {
        push_line(
            alloc,
            &mut text,
            &mut decider,
            source,
            declared,
            number,
            chooser,
        )?;
    }
    Ok(text)
}

// Appends the verdict of the line of this number. No place comes at those before it.
fn push_line<F: Fn(&[Frac]) -> Option<usize>>(
    alloc: Global,
    text: &mut String,
    decider: &mut Decider<'_, '_, '_>,
    source: &Program,
    declared: &Declared,
    number: usize,
    chooser: &Chooser<F>,
) -> Result<(), VerdictsFault>
    requires callable { F.IsAlwaysCallable chooser.now }
    requires chooses { IsChooser F.Fn chooser.now }
    requires one { AnswersByOne F.Fn chooser.now }
    requires source { program_of source.now ≡ source_in decider.old.program }
    requires work { has_work decider.old.certificate ≡ true }
    requires degree { declared.now.degree ≡ decider.old.certificate.degree }
    requires there { number < length declared.now.lines }
    requires few { length declared.now.lines < 2 ^ 31 }
    requires asked { AllCanBeAsked decider.old declared.now.lines }
    requires before { (pick : List ℤ → ℤ → Option ℕ) → AnswersBy F.Fn chooser.now pick →
        ClearBelow decider.old declared.now.lines pick number }
    ensures same { decider.new ≡ decider.old }
    ensures line { OnOk result (HasVerdictLine decider.old declared.now.lines number (string_bytes text.old) (string_bytes text.new)) }
    ensures clear { OnOk result
        ((pick : List ℤ → ℤ → Option ℕ) → AnswersBy F.Fn chooser.now pick → ClearBelow decider.old declared.now.lines pick (suc number)) }
    ensures fault { IfErr result (λ fault. (pick : List ℤ → ℤ → Option ℕ) → AnswersBy F.Fn chooser.now pick →
        VerdictsRefused (program_in decider.old.program) decider.old.certificate pick declared.now.lines fault) }
{
    match decider.decide(alloc, declared, number, chooser) {
        Ok(decision) => push_verdict(text, source, &declared.lines()[number], &decision),
        Err(fault) => Err(line_fault(&fault, number)),
    }
}

/// Why the bound on the line of this number, counted from 0, is not decided.
pub fn line_fault(fault: &DecideFault, number: usize) -> VerdictsFault
    requires { number < 2 ^ 31 }
    ensures { result ≡ fault_at number fault.now }
{
    let line = number as u32 + 1;
    match fault {
        DecideFault::TooLarge => VerdictsFault::TooLarge { line },
        DecideFault::Leaves(_) => VerdictsFault::Leaves { line },
        DecideFault::NoMemory => VerdictsFault::NoMemory,
    }
}

// Appends what is decided of a line.
fn push_verdict(
    text: &mut String,
    source: &Program,
    line: &DeclLine,
    decision: &Decision<'_, '_>,
) -> Result<(), VerdictsFault>
    ensures text { OnOk result (string_bytes text.new
        ≡ string_bytes text.old ++ verdict_line (program_of source.now) (line_of line.now) (verdict_of (decided_of decision.now))) }
    ensures memory { IfErr result (λ fault. fault ≡ VerdictsFault.NoMemory) }
{
    let name = name_at(source, line.fun);
    let pushed = match decision {
        Decision::Kept(_) => push_words(text, name, line.meter, " kept\n"),
        Decision::NotKept { .. } => push_words(text, name, line.meter, " not kept\n"),
        Decision::Calls(fun) => push_calls_line(text, name, line.meter, name_at(source, *fun)),
    };
    match pushed {
        Ok(()) => Ok(()),
        Err(AllocError) => Err(VerdictsFault::NoMemory),
    }
}

// Appends a name, a meter and words.
fn push_words(text: &mut String, name: &str, meter: Meter, words: &str) -> Result<(), AllocError>
    ensures { OnOk result (string_bytes text.new ≡ string_bytes text.old ++ (name.now ++ (codes " " ++ (meter_text meter ++ words.now)))) }
{
    text.push_str(name)?;
    text.push_str(" ")?;
    text.push_str(meter_name(meter))?;
    text.push_str(words)
}
