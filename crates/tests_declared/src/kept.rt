// The block that keeps a declared bound.
ghost use Rattle.std.specs.Prelude.{◌≡◌, ◌<◌, true, length};
ghost use Rattle.share_normal.specs.Program.{source_in};
ghost use Rattle.rules_plan.specs.Read.{program_in};
ghost use Rattle.annot_types.specs.Certificate.{has_work};
ghost use Rattle.bound_file.specs.Lines.{Line};
ghost use Rattle.bound_file.specs.Answers.{AreWithin};
ghost use Rattle.bound_contract.specs.Asked.{MayBeAsked};
ghost use Rattle.bound_infer.specs.Inferred.{IsInferred};
ghost use Rattle.raml_words.specs.declared.request.Rule.TheVariants as rule;
ghost use Rattle.raml_promise.specs.Analysis.{analysis};

use bound_contract::{Decision, decide};
use bound_file::{Declared, read};
use bound_infer::Verified;
use frac128::Frac;
use infer_spec::laws::courses_stay_within;
use infer_systems_laws::laws::{normals_are_ordered, systems_generate};
use normal_program::normal_form;
use other_blocks::OtherBlock;
use poly_text::print;
use raml_parse::parse;
use raml_parts::analyse;
use raml_syntax::FunId;
use raml_words::Rule;
use refusal_text::Analysed;
use share_normal::NormProgram;
use simple_types::Typed;
use simplex::Chooser;
use simplex_checked::least_column;
use std::alloc::Global;
use std::test::Fail;

const APPEND: &str = "\
fun append (x : int list, y : int list) : int list = match x with nil -> y | h :: t -> h :: append(t, y)";

fn typed_program(alloc: Global, source: &str) -> Result<Typed, Fail> {
    if source.len() > 2000 {
        return Err(Fail::from("the source is long"));
    }
    let Ok(program) = parse(alloc, source.as_bytes()) else {
        return Err(Fail::from("it is no program"));
    };
    match simple_types::check(alloc, program) {
        Ok(typed) => Ok(typed),
        Err(_) => Err(Fail::from("it is not typed")),
    }
}

/// What is decided of the first bound that a text declares at degree 1.
fn decision(alloc: Global, source: &str, bounds: &str) -> Result<String, Fail> {
    let typed = typed_program(alloc, source)?;
    if bounds.len() > 2000 {
        return Err(Fail::from("the bounds are long"));
    }
    let Ok(declared) = read(alloc, bounds.as_bytes(), typed.program(), 1) else {
        return Err(Fail::from("they are no declared bounds"));
    };
    if declared.lines().is_empty() {
        return Err(Fail::from("there is none"));
    }
    let program = normal_form(alloc, &typed)?;
    decision_over(alloc, &program, &declared)
}

fn decision_over(
    alloc: Global,
    program: &NormProgram<'_>,
    declared: &Declared,
) -> Result<String, Fail>
    requires degree { declared.now.degree ≡ 1 }
    requires within { AreWithin (source_in program.now) declared.now }
    requires some { 0 < length declared.now.lines }
{
    match analyse(alloc, Analysed::Program, program, 1, Rule::Least) {
        Ok(verified) => decided(alloc, program, &verified, declared),
        Err(_) => Err(Fail::from("it is not analysed")),
    }
}

// Each declared bound may be asked for over the certificate of a course.
fn may_be_asked(program: &NormProgram<'_>, verified: &Verified<'_, '_>)
    requires program { verified.now.program ≡ program.now }
    requires course { IsInferred (analysis (program_in program.now) 1 rule.Least) verified.now.certificate }
    ensures work { has_work verified.now.certificate ≡ true }
    ensures degree { verified.now.certificate.degree ≡ 1 }
    ensures asked { (line : Line) → line.fun < length (source_in program.now) → MayBeAsked verified.now line }
{
    systems_generate();
    normals_are_ordered();
    courses_stay_within();
    let _source = program.source();
    let _groups = program.groups();
    let _functions = program.functions();
}

fn decided(
    alloc: Global,
    program: &NormProgram<'_>,
    verified: &Verified<'_, '_>,
    declared: &Declared,
) -> Result<String, Fail>
    requires program { verified.now.program ≡ program.now }
    requires course { IsInferred (analysis (program_in program.now) 1 rule.Least) verified.now.certificate }
    requires degree { declared.now.degree ≡ 1 }
    requires within { AreWithin (source_in program.now) declared.now }
    requires some { 0 < length declared.now.lines }
{
    may_be_asked(program, verified);
    let chooser = Chooser::new(|gains: &[Frac]| least_column(gains));
    match decide(alloc, verified.checked(), declared, 0, &chooser) {
        Ok(Decision::Kept(other)) => bound_of(alloc, &other, declared),
        Ok(Decision::NotKept { .. }) => Ok(String::from_str(alloc, "not kept")?),
        Ok(Decision::Calls(FunId(fun))) => Ok(format!(in alloc; "calls {fun}")?),
        Err(_) => Err(Fail::from("it is not decided")),
    }
}

// The bound that the block gives to the function of the first declared bound.
fn bound_of(
    alloc: Global,
    other: &OtherBlock<'_, '_>,
    declared: &Declared,
) -> Result<String, Fail> {
    let Some(line) = declared.lines().first() else {
        return Err(Fail::from("there is none"));
    };
    if !other.has(line.fun) {
        return Err(Fail::from("the block is of another group"));
    }
    let poly = other.bound(alloc, line.fun)?;
    Ok(print(alloc, &poly)?)
}

#[test]
fn a_block_keeps_the_bound(rt: HostRuntime) -> Result<(), Fail> {
    let cases: [(&str, &str); 2] = [
        ("append cells <= 1*<[_], []>", "1*<[_], []>"),
        ("append cells <= 1*<[], [_]>", "not kept"),
    ];
    for (bounds, want) in cases {
        let found = decision(rt.alloc(), APPEND, bounds)?;
        assert_eq!(rt; found.as_str(), want);
    }
    Ok(())
}
