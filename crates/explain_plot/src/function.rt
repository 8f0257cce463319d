// What is drawn of a function, by the arguments that are asked for.
ghost use Rattle.std.specs.Prelude.{◌≡◌, ◌≤◌, ◌<◌, ◌++◌, [], Some, length, slice_get, IfOk, string_bytes};
ghost use Rattle.raml_syntax.specs.Place.{place_of};
ghost use Rattle.raml_syntax.specs.Tree.{Text};
ghost use Rattle.raml_syntax.specs.Read.{function_of, program_of};
ghost use Rattle.explain_check.specs.Checks.{IsProgramOf};
ghost use Rattle.explain_calls.specs.Sizes.{meter_of};
ghost use Rattle.explain_marks.specs.Marks.{OfSizes, origin_of};
ghost use Rattle.explain_words.specs.Laws.{IsDegree};
ghost use Rattle.explain_plot.specs.Along.{no_parameter};
ghost use Rattle.explain_plot.specs.Calls.{AreFilesDrawn, FunctionIs, GivenIs, IsDrawn, IsRefusal, MadeIs, ParameterIs};
ghost use Rattle.explain_plot.specs.Files.{AreShort};
ghost use Rattle.explain_plot.specs.Read.{outcome_of};

use crate::along::{push_no_parameter, sized};
use crate::call::Told;
use crate::files::all_fit;
use crate::program::{Asked, tell_asked};
use crate::sizes::read_sizes;
use explain_calls::meter_of;
use explain_check::Source;
use explain_marks::{Given, Made, Runs};
use explain_runs::parameter_types;
use explain_words::{Arguments, PlotWords};
use raml_syntax::{Fun, FunId};
use std::alloc::{AllocError, Global};

/// What is said where the words give no sizes.
const NO_SIZES: &str =
    "error: '--sizes <SIZES>' takes whole numbers of at most 100000 in ascending order, as 1,2,4,8\n";

/// Draws runs of a function, on made arguments or on those of the files.
pub(crate) fn tell_function(
    alloc: Global,
    source: &Source,
    fun: FunId,
    words: &PlotWords<'_>,
    files: &[Given<'_>],
    text: &mut String,
    report: &mut String,
) -> Result<Told, AllocError>
    requires program { IsProgramOf source.now.bytes.items (program_of source.now.typed) }
    requires few { length source.now.bytes.items ≤ 1048576 }
    requires short { AreShort files.now }
    requires range { IsDegree words.now.degree }
    requires there { place_of words.now.name.now (program_of source.now.typed) ≡ Some fun.0 }
    ensures { IfOk result (λ told. (shown part : Text)
        × FunctionIs (program_of source.now.typed) fun.0 words.now files.now (outcome_of told shown part)
        × (string_bytes text.new ≡ string_bytes text.old ++ shown)
        × (string_bytes report.new ≡ string_bytes report.old ++ part)) }
{
    let function = &source.typed.program().funs[fun.0 as usize];
    match &words.arguments {
        Arguments::Made { sizes, seed } => tell_made(
            alloc, source, fun, function, words, *sizes, *seed, text, report,
        ),
        Arguments::Given { .. } => tell_given(
            alloc, source, fun, function, words, files, text, report,
        ),
    }
}

/// Draws runs on arguments of the sizes that a text spells.
fn tell_made(
    alloc: Global,
    source: &Source,
    fun: FunId,
    function: &Fun,
    words: &PlotWords<'_>,
    sizes: &str,
    seed: u64,
    text: &mut String,
    report: &mut String,
) -> Result<Told, AllocError>
    requires program { IsProgramOf source.now.bytes.items (program_of source.now.typed) }
    requires few { length source.now.bytes.items ≤ 1048576 }
    requires range { IsDegree words.now.degree }
    requires there { slice_get (program_of source.now.typed) fun.0 ≡ Some (function_of function.now) }
    ensures { IfOk result (λ told. (shown part : Text)
        × MadeIs (program_of source.now.typed) fun.0 words.now sizes.now (outcome_of told shown part)
        × (string_bytes text.new ≡ string_bytes text.old ++ shown)
        × (string_bytes report.new ≡ string_bytes report.old ++ part)) }
{
    match read_sizes(alloc, sizes)? {
        Some(sizes) => tell_along(
            alloc, source, fun, function, words, &sizes, seed, text, report,
        ),
        None => {
            report.push_str(NO_SIZES)?;
            Ok(Told::refused())
        }
    }
}

/// Draws them with these sizes of the parameter that is asked for, or of all.
fn tell_along(
    alloc: Global,
    source: &Source,
    fun: FunId,
    function: &Fun,
    words: &PlotWords<'_>,
    sizes: &[u32],
    seed: u64,
    text: &mut String,
    report: &mut String,
) -> Result<Told, AllocError>
    requires program { IsProgramOf source.now.bytes.items (program_of source.now.typed) }
    requires few { length source.now.bytes.items ≤ 1048576 }
    requires range { IsDegree words.now.degree }
    requires there { slice_get (program_of source.now.typed) fun.0 ≡ Some (function_of function.now) }
    ensures { IfOk result (λ told. (shown part : Text)
        × ParameterIs (program_of source.now.typed) fun.0 words.now (outcome_of told shown part)
        × (string_bytes text.new ≡ string_bytes text.old ++ shown)
        × (string_bytes report.new ≡ string_bytes report.old ++ part)) }
{
    match words.parameter {
        Some(_) => match sized(&function.params, words.parameter) {
            Some(place) => {
                let runs = made_runs(sizes, Some(place), seed);
                tell_runs(alloc, source, fun, words, &runs, text, report)
            }
            None => refuse_parameter(words, report),
        },
        None => {
            let runs = made_runs(sizes, None, seed);
            tell_runs(alloc, source, fun, words, &runs, text, report)
        }
    }
}

/// Runs on arguments that are made.
fn made_runs(sizes: &[u32], along: Option<usize>, seed: u64) -> Runs<'_>
    ensures { origin_of result ≡ OfSizes }
{
    Runs::Made(Made { sizes, along, seed })
}

/// Draws runs on the arguments of files.
fn tell_given(
    alloc: Global,
    source: &Source,
    fun: FunId,
    function: &Fun,
    words: &PlotWords<'_>,
    files: &[Given<'_>],
    text: &mut String,
    report: &mut String,
) -> Result<Told, AllocError>
    requires program { IsProgramOf source.now.bytes.items (program_of source.now.typed) }
    requires few { length source.now.bytes.items ≤ 1048576 }
    requires short { AreShort files.now }
    requires range { IsDegree words.now.degree }
    requires there { slice_get (program_of source.now.typed) fun.0 ≡ Some (function_of function.now) }
    ensures { IfOk result (λ told. (shown part : Text)
        × GivenIs (program_of source.now.typed) fun.0 words.now files.now (outcome_of told shown part)
        × (string_bytes text.new ≡ string_bytes text.old ++ shown)
        × (string_bytes report.new ≡ string_bytes report.old ++ part)) }
{
    match sized(&function.params, words.parameter) {
        Some(place) => tell_files(
            alloc, source, fun, function, words, place, files, text, report,
        ),
        None => refuse_parameter(words, report),
    }
}

/// Draws them by the sizes of the parameter at the place.
fn tell_files(
    alloc: Global,
    source: &Source,
    fun: FunId,
    function: &Fun,
    words: &PlotWords<'_>,
    place: usize,
    files: &[Given<'_>],
    text: &mut String,
    report: &mut String,
) -> Result<Told, AllocError>
    requires program { IsProgramOf source.now.bytes.items (program_of source.now.typed) }
    requires few { length source.now.bytes.items ≤ 1048576 }
    requires short { AreShort files.now }
    requires range { IsDegree words.now.degree }
    requires there { slice_get (program_of source.now.typed) fun.0 ≡ Some (function_of function.now) }
    ensures { IfOk result (λ told. (shown part : Text)
        × AreFilesDrawn (program_of source.now.typed) fun.0 words.now files.now place (outcome_of told shown part)
        × (string_bytes text.new ≡ string_bytes text.old ++ shown)
        × (string_bytes report.new ≡ string_bytes report.old ++ part)) }
{
    let types = parameter_types(alloc, function)?;
    if !all_fit(alloc, files, &types, report)? {
        return Ok(Told::refused());
    }
    let runs = Runs::Given { place, files };
    tell_runs(alloc, source, fun, words, &runs, text, report)
}

/// Says that the function has no such parameter.
fn refuse_parameter(words: &PlotWords<'_>, report: &mut String) -> Result<Told, AllocError>
    ensures refused { IfOk result (λ told. IsRefusal (outcome_of told [] (no_parameter words.now)) (no_parameter words.now)) }
    ensures report { IfOk result (λ told. string_bytes report.new ≡ string_bytes report.old ++ no_parameter words.now) }
{
    push_no_parameter(words, report)?;
    Ok(Told::refused())
}

/// Draws these runs.
fn tell_runs(
    alloc: Global,
    source: &Source,
    fun: FunId,
    words: &PlotWords<'_>,
    runs: &Runs<'_>,
    text: &mut String,
    report: &mut String,
) -> Result<Told, AllocError>
    requires program { IsProgramOf source.now.bytes.items (program_of source.now.typed) }
    requires few { length source.now.bytes.items ≤ 1048576 }
    requires range { IsDegree words.now.degree }
    requires fun { fun.0 < length (program_of source.now.typed) }
    ensures { IfOk result (λ told. (shown part : Text)
        × IsDrawn (program_of source.now.typed) fun.0 words.now.degree (meter_of words.now.meter) (origin_of runs.now)
        (outcome_of told shown part)
        × (string_bytes text.new ≡ string_bytes text.old ++ shown)
        × (string_bytes report.new ≡ string_bytes report.old ++ part)) }
{
    let asked = Asked {
        fun,
        meter: meter_of(words.meter),
        most: words.degree,
    };
    tell_asked(alloc, &source.typed, asked, runs, text, report)
}
