// Words in the order in which `clap` gets them.
ghost use Rattle.std.specs.Prelude.{◌≡◌, ◌++◌, IfOk, map, string_bytes, codes};
ghost use Rattle.raml_words.specs.Words.{texts};
ghost use Rattle.raml_words.specs.Sorting.{pairs, lent};
ghost use Rattle.raml_words.specs.Apps.{ordered, options_words, bounds_pairs, run_pairs, degree_pairs, spend_pairs};

use std::alloc::{AllocError, Global};

/// The command, each option as `--o=V`, `--`, and the operands.
pub fn ordered(
    alloc: Global,
    command: &str,
    options: &[(&str, &str)],
    operands: &[&str],
) -> Result<Vec<String>, AllocError>
    ensures { IfOk result (λ words. map string_bytes words.items ≡ ordered command.now (pairs options.now) (texts operands.now)) }
{
    let mut words = with_options(alloc, command, options)?;
    words.push(String::from_str(alloc, "--")?)?;
    for operand in operands {
        words.push(String::from_str(alloc, *operand)?)?;
    }
    Ok(words)
}

fn with_options(
    alloc: Global,
    command: &str,
    options: &[(&str, &str)],
) -> Result<Vec<String>, AllocError>
    ensures { IfOk result (λ words. map string_bytes words.items ≡ options_words command.now (pairs options.now)) }
{
    let mut words = Vec::new(alloc);
    words.push(String::from_str(alloc, command)?)?;
    for (name, value) in options {
        words.push(format!(in alloc; "--{name}={value}")?)?;
    }
    Ok(words)
}

/// The ordered words of a command with a degree and perhaps a rule.
pub fn ordered_bounds(
    alloc: Global,
    command: &str,
    degree: Option<&str>,
    pivot: Option<&str>,
    operands: &[&str],
) -> Result<Vec<String>, AllocError>
    ensures { IfOk result (λ words. map string_bytes words.items
        ≡ ordered command.now (bounds_pairs (lent degree.entry) (lent pivot.entry)) (texts operands.now)) }
{
    let options = bounds_values(alloc, degree, pivot)?;
    ordered(alloc, command, &options, operands)
}

fn bounds_values<'a>(
    alloc: Global,
    degree: Option<&'a str>,
    pivot: Option<&'a str>,
) -> Result<Vec<(&'a str, &'a str)>, AllocError>
    ensures { IfOk result (λ options. pairs options.items ≡ bounds_pairs (lent degree.entry) (lent pivot.entry)) }
{
    let mut options = Vec::new(alloc);
    if let Some(value) = degree {
        options.push(("degree", value))?;
    }
    if let Some(value) = pivot {
        options.push(("pivot", value))?;
    }
    Ok(options)
}

/// The ordered words of `run`.
pub fn ordered_run(
    alloc: Global,
    steps: Option<&str>,
    cells: Option<&str>,
    degree: Option<&str>,
    operands: &[&str],
) -> Result<Vec<String>, AllocError>
    ensures { IfOk result (λ words. map string_bytes words.items ≡ ordered (codes "run") (run_pairs (lent steps.entry) (lent cells.entry) (lent degree.entry)) (texts operands.now)) }
{
    let options = run_values(alloc, steps, cells, degree)?;
    ordered(alloc, "run", &options, operands)
}

// The options that are there, in the order of the command.
fn run_values<'a>(
    alloc: Global,
    steps: Option<&'a str>,
    cells: Option<&'a str>,
    degree: Option<&'a str>,
) -> Result<Vec<(&'a str, &'a str)>, AllocError>
    ensures { IfOk result (λ options. pairs options.items ≡ run_pairs (lent steps.entry) (lent cells.entry) (lent degree.entry)) }
{
    let mut options = Vec::new(alloc);
    if let Some(value) = steps {
        options.push(("steps", value))?;
    }
    if let Some(value) = cells {
        options.push(("cells", value))?;
    }
    if let Some(value) = degree {
        options.push(("degree", value))?;
    }
    Ok(options)
}

/// The ordered words of a command with a degree.
pub fn ordered_degree(
    alloc: Global,
    command: &str,
    degree: Option<&str>,
    operands: &[&str],
) -> Result<Vec<String>, AllocError>
    ensures { IfOk result (λ words. map string_bytes words.items
        ≡ ordered command.now (degree_pairs (lent degree.entry)) (texts operands.now)) }
{
    match degree {
        Some(value) => ordered(alloc, command, &[("degree", value)], operands),
        None => ordered(alloc, command, &[], operands),
    }
}

/// The ordered words of `spend`.
pub fn ordered_spend(
    alloc: Global,
    steps: Option<&str>,
    cells: Option<&str>,
    operands: &[&str],
) -> Result<Vec<String>, AllocError>
    ensures { IfOk result (λ words. map string_bytes words.items ≡ ordered (codes "spend") (spend_pairs (lent steps.entry) (lent cells.entry)) (texts operands.now)) }
{
    let options = spend_values(alloc, steps, cells)?;
    ordered(alloc, "spend", &options, operands)
}

fn spend_values<'a>(
    alloc: Global,
    steps: Option<&'a str>,
    cells: Option<&'a str>,
) -> Result<Vec<(&'a str, &'a str)>, AllocError>
    ensures { IfOk result (λ options. pairs options.items ≡ spend_pairs (lent steps.entry) (lent cells.entry)) }
{
    let mut options = Vec::new(alloc);
    if let Some(value) = steps {
        options.push(("steps", value))?;
    }
    if let Some(value) = cells {
        options.push(("cells", value))?;
    }
    Ok(options)
}
