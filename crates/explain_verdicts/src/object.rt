// Verdicts as JSON.
ghost use Rattle.std.specs.Prelude.{◌≡◌, ◌≤◌, ◌<◌, ◌++◌, [], ◌∷◌, OnOk, IfSome, option_map, codes, decimal, take};
ghost use Rattle.std.specs.List.{All};
ghost use Rattle.raml_syntax.specs.Types.{types_of};
ghost use Rattle.raml_syntax.specs.Read.{program_of, function_of};
ghost use Rattle.base_poly.specs.Poly.{IsPoly};
ghost use Rattle.bound_file.specs.Read.{line_of, IsSound};
ghost use Rattle.json.specs.Token as token;
ghost use Rattle.json.specs.Tree.{json_tokens};
ghost use Rattle.report_text.specs.Names.{meter_text};
ghost use Rattle.explain_verdicts.specs.Fractions.{ArePlaced};
ghost use Rattle.explain_verdicts.specs.Reads.{bound_of};
ghost use Rattle.explain_verdicts.specs.Line.{is_kept, verdict_text};
ghost use Rattle.explain_verdicts.specs.Json.{fractions_json, found_json, verdict_json};
ghost use Rattle.explain_verdicts.specs.Tokens.{head_tokens, bounds_tokens, calls_tokens};
ghost use Rattle.explain_verdicts.specs.Read.{found_of};
ghost use Rattle.explain_verdicts.specs.Written.{IsFound};

use crate::fraction::{Fraction, fractions_of};
use crate::judged::{Judged, Verdict};
use crate::line::verdict_name;
use base_poly::Poly;
use bound_file::DeclLine;
use cost_free::Meter;
use explain_json::{write_poly, write_term, write_text};
use json::Writer;
use raml_syntax::{Fun, Program};
use report_text::{meter_name, name_at};
use std::alloc::{AllocError, Global};

/// Writes the object of a declared bound of this function of a program, at a degree: whether it is kept, with what is
/// declared and what was found.
pub fn write_verdict(
    alloc: Global,
    writer: &mut Writer,
    program: &Program,
    fun: &Fun,
    degree: u8,
    line: &DeclLine,
    judged: &Judged,
) -> Result<(), AllocError>
    requires degree { degree ≤ 4 }
    requires sound { IsSound line.now }
    requires placed { ArePlaced (types_of (function_of fun.now)) degree (line_of line.now).bound }
    requires found { IfSome judged.now.found (IsFound (types_of (function_of fun.now))) }
    ensures written { OnOk result (writer.new.tokens ≡ writer.old.tokens ++ json_tokens
        (verdict_json (program_of program.now) (function_of fun.now) degree (line_of line.now) judged.now.verdict (found_of judged.now))) }
    ensures before { writer.new.before ≡ writer.old.before }
{
    let fractions = fractions_of(alloc, fun, degree, line)?;
    writer.begin_object()?;
    write_head(writer, fun.name.text(), line.meter, degree, &judged.verdict)?;
    write_bounds(alloc, writer, &fractions, &judged.found)?;
    write_calls(writer, program, &judged.verdict)?;
    writer.end_object()
}

// Writes the members for a name, a meter, a degree and a verdict.
fn write_head(
    writer: &mut Writer,
    name: &str,
    meter: Meter,
    degree: u8,
    verdict: &Verdict,
) -> Result<(), AllocError>
    ensures written { OnOk result (writer.new.tokens ≡ writer.old.tokens ++ head_tokens name.now meter degree verdict.now) }
    ensures before { writer.new.before ≡ writer.old.before }
{
    write_text(writer, "function", name)?;
    write_text(writer, "meter", meter_name(meter))?;
    writer.key("degree")?;
    writer.u64(u64::from(degree))?;
    write_text(writer, "verdict", verdict_name(verdict))
}

// Writes the members for what is declared and what was found.
fn write_bounds(
    alloc: Global,
    writer: &mut Writer,
    fractions: &[Fraction],
    found: &Option<Poly>,
) -> Result<(), AllocError>
    requires denominators { All (λ f. 0 < f.denominator) fractions.now }
    requires found { IfSome found.now IsPoly }
    ensures written { OnOk result (writer.new.tokens ≡ writer.old.tokens ++ bounds_tokens fractions.now (option_map bound_of found.now)) }
    ensures before { writer.new.before ≡ writer.old.before }
{
    writer.key("declared")?;
    write_fractions(alloc, writer, fractions)?;
    writer.key("found")?;
    write_found(alloc, writer, found)
}

// Writes what is declared.
fn write_fractions(
    alloc: Global,
    writer: &mut Writer,
    fractions: &[Fraction],
) -> Result<(), AllocError>
    requires { All (λ f. 0 < f.denominator) fractions.now }
    ensures written { OnOk result (writer.new.tokens ≡ writer.old.tokens ++ json_tokens (fractions_json fractions.now)) }
    ensures before { writer.new.before ≡ writer.old.before }
{
    writer.begin_array()?;
    for fraction in fractions {
        write_term(
            alloc,
            writer,
            &fraction.tuple,
            fraction.numerator,
            fraction.denominator,
        )?;
    }
    writer.end_array()
}

// Writes the bound that was found, or null.
fn write_found(alloc: Global, writer: &mut Writer, found: &Option<Poly>) -> Result<(), AllocError>
    requires { IfSome found.now IsPoly }
    ensures written { OnOk result (writer.new.tokens ≡ writer.old.tokens ++ json_tokens (found_json (option_map bound_of found.now))) }
    ensures before { writer.new.before ≡ writer.old.before }
{
    match found {
        Some(poly) => write_poly(alloc, writer, poly),
        None => writer.null(),
    }
}

// Writes the member for the function that is called and has no bound, where the verdict is that.
fn write_calls(writer: &mut Writer, program: &Program, verdict: &Verdict) -> Result<(), AllocError>
    ensures written { OnOk result (writer.new.tokens ≡ writer.old.tokens ++ calls_tokens (program_of program.now) verdict.now) }
    ensures before { writer.new.before ≡ writer.old.before }
{
    match verdict {
        Verdict::Calls(callee) => write_text(writer, "calls", name_at(program, *callee)),
        Verdict::Kept | Verdict::NotKept => Ok(()),
    }
}
