// What requests ask for.
ghost use Rattle.std.specs.Prelude.{◌≡◌, ◌≤◌, None};
ghost use Rattle.raml_syntax.specs.Tree.{Text};
ghost use Rattle.raml_words.specs.Words as asked_words;
ghost use Rattle.raml_words.specs.Asked.{request_of};
ghost use Rattle.raml_promise.specs.Outside.{Sound, store_of};
ghost use Rattle.raml_promise.specs.Steps.{OfProgram};
ghost use Rattle.raml_promise.specs.Call.{cells_or};
ghost use Rattle.raml_promise.specs.Promise.{Answers, ListsTypes, ListsCode, Analyses, Certifies, Verifies, RunsWithin, RunsWithBounds};
ghost use Rattle.raml_promise.specs.Promise.{PricesProgram, SpendsWithin, Compares, ChecksBounds, ShowsPowers};
ghost use Rattle.raml_parts.specs.Parts.{Gives, IsWithin, CellsWithin, DegreeWithin, OfTrial};

use crate::commands::{
    analysis_certificate, analysis_lines, analysis_powers, list_code, list_types, verification,
};
use crate::comparison::comparison;
use crate::contract::bound_verdicts;
use crate::prices::{priced_lines, spend_within};
use crate::runs::{bounded_run, run_within};
use crate::trial::trial;
use raml_io::Store;
use raml_parts::read_program;
use raml_words::{Request, Rule};
use refusal_text::Analysed;
use refusals::{Refusal, Report};
use std::alloc::Global;

/// What a request asks for.
pub fn request_answer<S: Store>(
    alloc: Global,
    store: &mut S,
    request: &Request,
) -> Result<Report, Refusal>
    requires { IsWithin (request_of request.now) }
    ensures gives { Gives (Answers Sound
        (store_of (S.holds store.old) (S.faults store.old) (S.faults store.new)) (request_of request.now)) result }
    ensures still { OfTrial (request_of request.now) (store.new ≡ store.old) }
    ensures kept { S.holds store.new ≡ S.holds store.old }
    ensures later { (name : Text) → S.faults store.old name ≤ S.faults store.new name }
{
    match request {
        Request::Types { file } => types_answer(alloc, store, file),
        Request::Code { file } => code_answer(alloc, store, file),
        Request::Analyse { file, degree, rule } => {
            analyse_answer(alloc, store, file, *degree, *rule)
        }
        Request::Certify { file, degree, rule } => {
            certify_answer(alloc, store, file, *degree, *rule)
        }
        Request::Verify { file, certificate } => verify_answer(alloc, store, file, certificate),
        Request::Run {
            file,
            name,
            input,
            steps,
            cells,
            degree,
        } => run_request(alloc, store, file, name, input, *steps, *cells, *degree),
        Request::Priced {
            file,
            prices,
            degree,
        } => priced_answer(alloc, store, file, prices, *degree),
        Request::Spend {
            file,
            prices,
            name,
            input,
            steps,
            cells,
        } => spend_answer(alloc, store, file, prices, name, input, *steps, *cells),
        Request::Compare {
            file,
            other,
            degree,
        } => compare_answer(alloc, store, file, other, *degree),
        Request::Contract {
            file,
            bounds,
            degree,
        } => contract_answer(alloc, store, file, bounds, *degree),
        Request::Powers { file, degree } => powers_answer(alloc, store, file, *degree),
        Request::Trial { count } => trial(alloc, *count),
    }
}

// A run, with its bounds where a degree is given.
fn run_request<S: Store>(
    alloc: Global,
    store: &mut S,
    file: &str,
    name: &str,
    input: &str,
    steps: u64,
    cells: Option<u32>,
    degree: Option<u8>,
) -> Result<Report, Refusal>
    requires steps { steps ≤ 1000000000 }
    requires cells { CellsWithin cells }
    requires degree { DegreeWithin degree }
    ensures gives { Gives (Answers Sound (store_of (S.holds store.old) (S.faults store.old) (S.faults store.new))
        (asked_words.Run file.now name.now input.now steps cells degree)) result }
    ensures kept { S.holds store.new ≡ S.holds store.old }
    ensures later { (name : Text) → S.faults store.old name ≤ S.faults store.new name }
{
    match degree {
        None => run_answer(alloc, store, file, name, input, steps, cells),
        Some(degree) => bounded_answer(alloc, store, file, name, input, steps, cells, degree),
    }
}

fn types_answer<S: Store>(alloc: Global, store: &mut S, file: &str) -> Result<Report, Refusal>
    ensures gives { Gives (OfProgram Sound
        (store_of (S.holds store.old) (S.faults store.old) (S.faults store.new)) Analysed.Program file.now
        (ListsTypes Sound)) result }
    ensures kept { S.holds store.new ≡ S.holds store.old }
    ensures later { (name : Text) → S.faults store.old name ≤ S.faults store.new name }
{
    match read_program(alloc, store, Analysed::Program, file) {
        Ok(typed) => list_types(alloc, &typed),
        Err(refusal) => Err(refusal),
    }
}

fn code_answer<S: Store>(alloc: Global, store: &mut S, file: &str) -> Result<Report, Refusal>
    ensures gives { Gives (OfProgram Sound
        (store_of (S.holds store.old) (S.faults store.old) (S.faults store.new)) Analysed.Program file.now
        (ListsCode Sound)) result }
    ensures kept { S.holds store.new ≡ S.holds store.old }
    ensures later { (name : Text) → S.faults store.old name ≤ S.faults store.new name }
{
    match read_program(alloc, store, Analysed::Program, file) {
        Ok(typed) => list_code(alloc, &typed),
        Err(refusal) => Err(refusal),
    }
}

fn analyse_answer<S: Store>(
    alloc: Global,
    store: &mut S,
    file: &str,
    degree: u8,
    rule: Rule,
) -> Result<Report, Refusal>
    requires least_degree { 1 ≤ degree }
    requires most_degree { degree ≤ 4 }
    ensures gives { Gives (OfProgram Sound
        (store_of (S.holds store.old) (S.faults store.old) (S.faults store.new)) Analysed.Program file.now
        (Analyses Sound degree rule)) result }
    ensures kept { S.holds store.new ≡ S.holds store.old }
    ensures later { (name : Text) → S.faults store.old name ≤ S.faults store.new name }
{
    match read_program(alloc, store, Analysed::Program, file) {
        Ok(typed) => analysis_lines(alloc, &typed, degree, rule),
        Err(refusal) => Err(refusal),
    }
}

fn certify_answer<S: Store>(
    alloc: Global,
    store: &mut S,
    file: &str,
    degree: u8,
    rule: Rule,
) -> Result<Report, Refusal>
    requires least_degree { 1 ≤ degree }
    requires most_degree { degree ≤ 4 }
    ensures gives { Gives (OfProgram Sound
        (store_of (S.holds store.old) (S.faults store.old) (S.faults store.new)) Analysed.Program file.now
        (Certifies Sound degree rule)) result }
    ensures kept { S.holds store.new ≡ S.holds store.old }
    ensures later { (name : Text) → S.faults store.old name ≤ S.faults store.new name }
{
    match read_program(alloc, store, Analysed::Program, file) {
        Ok(typed) => analysis_certificate(alloc, &typed, degree, rule),
        Err(refusal) => Err(refusal),
    }
}

fn verify_answer<S: Store>(
    alloc: Global,
    store: &mut S,
    file: &str,
    certificate: &str,
) -> Result<Report, Refusal>
    ensures gives { Gives (OfProgram Sound
        (store_of (S.holds store.old) (S.faults store.old) (S.faults store.new)) Analysed.Program file.now
        (Verifies Sound (store_of (S.holds store.old) (S.faults store.old) (S.faults store.new)) certificate.now)) result }
    ensures kept { S.holds store.new ≡ S.holds store.old }
    ensures later { (name : Text) → S.faults store.old name ≤ S.faults store.new name }
{
    match read_program(alloc, store, Analysed::Program, file) {
        Ok(typed) => verification(alloc, store, &typed, certificate),
        Err(refusal) => Err(refusal),
    }
}

fn run_answer<S: Store>(
    alloc: Global,
    store: &mut S,
    file: &str,
    name: &str,
    input: &str,
    steps: u64,
    cells: Option<u32>,
) -> Result<Report, Refusal>
    requires steps { steps ≤ 1000000000 }
    requires cells { CellsWithin cells }
    ensures gives { Gives (OfProgram Sound
        (store_of (S.holds store.old) (S.faults store.old) (S.faults store.new)) Analysed.Program file.now
        (RunsWithin Sound (store_of (S.holds store.old) (S.faults store.old) (S.faults store.new)) name.now input.now
        (record { steps = steps; cells = cells_or cells None }))) result }
    ensures kept { S.holds store.new ≡ S.holds store.old }
    ensures later { (name : Text) → S.faults store.old name ≤ S.faults store.new name }
{
    match read_program(alloc, store, Analysed::Program, file) {
        Ok(typed) => run_within(alloc, store, &typed, name, input, steps, cells),
        Err(refusal) => Err(refusal),
    }
}

fn bounded_answer<S: Store>(
    alloc: Global,
    store: &mut S,
    file: &str,
    name: &str,
    input: &str,
    steps: u64,
    cells: Option<u32>,
    degree: u8,
) -> Result<Report, Refusal>
    requires steps { steps ≤ 1000000000 }
    requires cells { CellsWithin cells }
    requires least_degree { 1 ≤ degree }
    requires most_degree { degree ≤ 4 }
    ensures gives { Gives (OfProgram Sound
        (store_of (S.holds store.old) (S.faults store.old) (S.faults store.new)) Analysed.Program file.now
        (RunsWithBounds Sound (store_of (S.holds store.old) (S.faults store.old)
        (S.faults store.new)) name.now input.now steps cells degree)) result }
    ensures kept { S.holds store.new ≡ S.holds store.old }
    ensures later { (name : Text) → S.faults store.old name ≤ S.faults store.new name }
{
    match read_program(alloc, store, Analysed::Program, file) {
        Ok(typed) => bounded_run(alloc, store, &typed, name, input, steps, cells, degree),
        Err(refusal) => Err(refusal),
    }
}

fn priced_answer<S: Store>(
    alloc: Global,
    store: &mut S,
    file: &str,
    prices: &str,
    degree: u8,
) -> Result<Report, Refusal>
    requires least_degree { 1 ≤ degree }
    requires most_degree { degree ≤ 4 }
    ensures gives { Gives (OfProgram Sound
        (store_of (S.holds store.old) (S.faults store.old) (S.faults store.new)) Analysed.Program file.now
        (PricesProgram Sound (store_of (S.holds store.old) (S.faults store.old) (S.faults store.new)) prices.now degree)) result }
    ensures kept { S.holds store.new ≡ S.holds store.old }
    ensures later { (name : Text) → S.faults store.old name ≤ S.faults store.new name }
{
    match read_program(alloc, store, Analysed::Program, file) {
        Ok(typed) => priced_lines(alloc, store, &typed, prices, degree),
        Err(refusal) => Err(refusal),
    }
}

fn spend_answer<S: Store>(
    alloc: Global,
    store: &mut S,
    file: &str,
    prices: &str,
    name: &str,
    input: &str,
    steps: u64,
    cells: Option<u32>,
) -> Result<Report, Refusal>
    requires steps { steps ≤ 1000000000 }
    requires cells { CellsWithin cells }
    ensures gives { Gives (OfProgram Sound
        (store_of (S.holds store.old) (S.faults store.old) (S.faults store.new)) Analysed.Program file.now
        (SpendsWithin Sound (store_of (S.holds store.old) (S.faults store.old)
        (S.faults store.new)) prices.now name.now input.now (record { steps = steps; cells = cells_or cells None }))) result }
    ensures kept { S.holds store.new ≡ S.holds store.old }
    ensures later { (name : Text) → S.faults store.old name ≤ S.faults store.new name }
{
    match read_program(alloc, store, Analysed::Program, file) {
        Ok(typed) => { spend_within(alloc, store, &typed, prices, name, input, steps, cells) }
        Err(refusal) => Err(refusal),
    }
}

fn compare_answer<S: Store>(
    alloc: Global,
    store: &mut S,
    file: &str,
    other: &str,
    degree: u8,
) -> Result<Report, Refusal>
    requires least_degree { 1 ≤ degree }
    requires most_degree { degree ≤ 4 }
    ensures gives { Gives (OfProgram Sound
        (store_of (S.holds store.old) (S.faults store.old) (S.faults store.new)) Analysed.Program file.now
        (Compares Sound (store_of (S.holds store.old) (S.faults store.old) (S.faults store.new)) other.now degree)) result }
    ensures kept { S.holds store.new ≡ S.holds store.old }
    ensures later { (name : Text) → S.faults store.old name ≤ S.faults store.new name }
{
    match read_program(alloc, store, Analysed::Program, file) {
        Ok(typed) => comparison(alloc, store, &typed, other, degree),
        Err(refusal) => Err(refusal),
    }
}

fn contract_answer<S: Store>(
    alloc: Global,
    store: &mut S,
    file: &str,
    bounds: &str,
    degree: u8,
) -> Result<Report, Refusal>
    requires least_degree { 1 ≤ degree }
    requires most_degree { degree ≤ 4 }
    ensures gives { Gives (OfProgram Sound
        (store_of (S.holds store.old) (S.faults store.old) (S.faults store.new)) Analysed.Program file.now
        (ChecksBounds Sound (store_of (S.holds store.old) (S.faults store.old) (S.faults store.new)) bounds.now degree)) result }
    ensures kept { S.holds store.new ≡ S.holds store.old }
    ensures later { (name : Text) → S.faults store.old name ≤ S.faults store.new name }
{
    match read_program(alloc, store, Analysed::Program, file) {
        Ok(typed) => bound_verdicts(alloc, store, &typed, bounds, degree),
        Err(refusal) => Err(refusal),
    }
}

fn powers_answer<S: Store>(
    alloc: Global,
    store: &mut S,
    file: &str,
    degree: u8,
) -> Result<Report, Refusal>
    requires least_degree { 1 ≤ degree }
    requires most_degree { degree ≤ 4 }
    ensures gives { Gives (OfProgram Sound
        (store_of (S.holds store.old) (S.faults store.old) (S.faults store.new)) Analysed.Program file.now
        (ShowsPowers Sound degree)) result }
    ensures kept { S.holds store.new ≡ S.holds store.old }
    ensures later { (name : Text) → S.faults store.old name ≤ S.faults store.new name }
{
    match read_program(alloc, store, Analysed::Program, file) {
        Ok(typed) => analysis_powers(alloc, &typed, degree),
        Err(refusal) => Err(refusal),
    }
}
