// Commands under a table of prices.
ghost use Rattle.std.specs.Prelude.{◌≡◌, ◌≤◌, ℕ, List, None, IfOk, IfErr};
ghost use Rattle.raml_syntax.specs.Tree.{Text, Prog};
ghost use Rattle.raml_syntax.specs.Value.{Value};
ghost use Rattle.raml_syntax.specs.Read.{program_of};
ghost use Rattle.rules_plan.specs.Read.{program_in};
ghost use Rattle.share_normal.specs.Program.{source_in};
ghost use Rattle.price_file.specs.Construct.{Prices as ThePrices};
ghost use Rattle.price_file.specs.Applied.{applied_program};
ghost use Rattle.price_file.specs.Read.{prices_of};
ghost use Rattle.raml_words.specs.declared.request.Rule.TheVariants as rule;
ghost use Rattle.refusals.specs.Line.{no_names};
ghost use Rattle.raml_promise.specs.Outside.{Sound, store_of};
ghost use Rattle.raml_promise.specs.Steps.{Prints};
ghost use Rattle.raml_promise.specs.Analysis.{IsProved, OfCourse};
ghost use Rattle.raml_promise.specs.Call.{Placed, OfCall, cells_or};
ghost use Rattle.raml_promise.specs.Prices.{ArePricedLines, Spends};
ghost use Rattle.raml_promise.specs.Promise.{PricesLines, PricesProgram, SpendsWithin};
ghost use Rattle.raml_parts.specs.Parts.{Before, IsReady, Gives, Refuses, ArePrices, PriceFileRefuses, IsCallOf, CellsWithin};

use crate::runs::limited_call;
use analysis_report::meter_lines;
use bound_infer::Verified;
use cost_free::Meter;
use normal_program::normal_form;
use price_file::{Prices, apply, read};
use raml_io::Store;
use raml_parts::{Call, analyse, read_call, read_file};
use raml_words::Rule;
use refusal_text::{Analysed, Which};
use refusals::{Refusal, Report, price_refusal};
use share_normal::NormProgram;
use simple_types::Typed;
use stack_compile::laws::machine_is_linked;
use std::alloc::Global;

/// The prices that a file tells.
fn read_prices<S: Store>(alloc: Global, store: &mut S, file: &str) -> Result<Prices, Refusal>
    ensures ok { (before : Text → ℕ) →
        IfOk result (λ prices. ArePrices (store_of (S.holds store.old) before (S.faults store.new)) file.now (prices_of prices)) }
    ensures err { (before : Text → ℕ) → Before before (S.faults store.old) →
        IfErr result (Refuses no_names (PriceFileRefuses (store_of (S.holds store.old) before (S.faults store.new)) file.now)) }
    ensures kept { S.holds store.new ≡ S.holds store.old }
    ensures later { (other : Text) → S.faults store.old other ≤ S.faults store.new other }
{
    match read_file(alloc, store, file, Which::Prices) {
        Ok(bytes) => match read(&bytes) {
            Ok(prices) => Ok(prices),
            Err(fault) => Err(price_refusal(alloc, fault)),
        },
        Err(refusal) => Err(refusal),
    }
}

/// The lines of ticks of a program under the prices in a file.
pub fn priced_lines<S: Store>(
    alloc: Global,
    store: &mut S,
    typed: &Typed,
    file: &str,
    degree: u8,
) -> Result<Report, Refusal>
    requires ready { IsReady (program_of typed.now) }
    requires least_degree { 1 ≤ degree }
    requires most_degree { degree ≤ 4 }
    ensures gives { (before : Text → ℕ) → Before before (S.faults store.old) →
        Gives (PricesProgram Sound
        (store_of (S.holds store.old) before (S.faults store.new)) file.now degree (program_of typed.now)) result }
    ensures kept { S.holds store.new ≡ S.holds store.old }
    ensures later { (other : Text) → S.faults store.old other ≤ S.faults store.new other }
{
    match read_prices(alloc, store, file) {
        Ok(prices) => lines_under(alloc, typed, &prices, degree),
        Err(refusal) => Err(refusal),
    }
}

fn lines_under(alloc: Global, typed: &Typed, prices: &Prices, degree: u8) -> Result<Report, Refusal>
    requires ready { IsReady (program_of typed.now) }
    requires least_degree { 1 ≤ degree }
    requires most_degree { degree ≤ 4 }
    ensures { Gives (PricesLines Sound degree (program_of typed.now) (prices_of prices.now)) result }
{
    let applied = apply(alloc, typed, prices)?;
    match normal_form(alloc, &applied) {
        Ok(program) => course_under(alloc, &program, degree),
        Err(_) => Err(Refusal::no_memory()),
    }
}

// The lines of ticks of the course of a program in which prices are written out.
fn course_under(alloc: Global, program: &NormProgram<'_>, degree: u8) -> Result<Report, Refusal>
    requires least_degree { 1 ≤ degree }
    requires most_degree { degree ≤ 4 }
    ensures { (prices : ThePrices) (P : Prog) → source_in program.now ≡ applied_program prices P →
        Gives (OfCourse Sound Analysed.Program (source_in program.now) (program_in program.now) degree rule.Least
        (λ c. Prints Sound (ArePricedLines prices P (program_in program.now) c))) result }
{
    match analyse(alloc, Analysed::Program, program, degree, Rule::Least) {
        Ok(verified) => tick_report(alloc, program, &verified),
        Err(refusal) => Err(refusal),
    }
}

fn tick_report(
    alloc: Global,
    program: &NormProgram<'_>,
    verified: &Verified<'_, '_>,
) -> Result<Report, Refusal>
    requires program { verified.now.program ≡ program.now }
    requires proved { IsProved (source_in program.now) (program_in program.now) verified.now.certificate }
    ensures { (prices : ThePrices) (P : Prog) → source_in program.now ≡ applied_program prices P →
        Gives (Prints Sound (ArePricedLines prices P (program_in program.now) verified.now.certificate)) result }
{
    let _functions = program.functions();
    match meter_lines(alloc, program, verified, Meter::Ticks) {
        Ok(text) => Ok(Report::done(text)),
        Err(_) => Err(Refusal::no_memory()),
    }
}

/// A run of a program under the prices in a file, within limits.
pub fn spend_within<S: Store>(
    alloc: Global,
    store: &mut S,
    typed: &Typed,
    file: &str,
    name: &str,
    input: &str,
    steps: u64,
    cells: Option<u32>,
) -> Result<Report, Refusal>
    requires ready { IsReady (program_of typed.now) }
    requires steps { steps ≤ 1000000000 }
    requires cells { CellsWithin cells }
    ensures gives { (before : Text → ℕ) → Before before (S.faults store.old) →
        Gives (SpendsWithin Sound (store_of (S.holds store.old) before (S.faults store.new)) file.now name.now input.now
        (record { steps = steps; cells = cells_or cells None }) (program_of typed.now)) result }
    ensures kept { S.holds store.new ≡ S.holds store.old }
    ensures later { (other : Text) → S.faults store.old other ≤ S.faults store.new other }
{
    match read_prices(alloc, store, file) {
        Ok(prices) => run_under(alloc, store, typed, &prices, name, input, steps, cells),
        Err(refusal) => Err(refusal),
    }
}

fn run_under<S: Store>(
    alloc: Global,
    store: &mut S,
    typed: &Typed,
    prices: &Prices,
    name: &str,
    input: &str,
    steps: u64,
    cells: Option<u32>,
) -> Result<Report, Refusal>
    requires ready { IsReady (program_of typed.now) }
    requires steps { steps ≤ 1000000000 }
    requires cells { CellsWithin cells }
    ensures gives { (before : Text → ℕ) → Before before (S.faults store.old) →
        Gives (OfCall Sound (store_of (S.holds store.old) before (S.faults store.new)) (program_of typed.now) name.now input.now
        (λ f args. Spends Sound (prices_of prices.now) (program_of typed.now) f args
        (record { steps = steps; cells = cells_or cells None }))) result }
    ensures kept { S.holds store.new ≡ S.holds store.old }
    ensures later { (other : Text) → S.faults store.old other ≤ S.faults store.new other }
{
    match read_call(alloc, store, typed, name, input) {
        Ok(call) => call_under(alloc, typed, prices, call, steps, cells),
        Err(refusal) => Err(refusal),
    }
}

fn call_under(
    alloc: Global,
    typed: &Typed,
    prices: &Prices,
    call: Call,
    steps: u64,
    cells: Option<u32>,
) -> Result<Report, Refusal>
    requires ready { IsReady (program_of typed.now) }
    requires steps { steps ≤ 1000000000 }
    requires cells { CellsWithin cells }
    requires call { (f : Placed) × (vs : List Value) × IsCallOf (program_of typed.now) f call vs }
    ensures { (f : Placed) (vs : List Value) → IsCallOf (program_of typed.now) f call vs →
        Gives (Spends Sound (prices_of prices.now) (program_of typed.now) f vs
        (record { steps = steps; cells = cells_or cells None })) result }
{
    machine_is_linked();
    let applied = apply(alloc, typed, prices)?;
    let _program = applied.program();
    limited_call(alloc, &applied, call, steps, cells)
}
