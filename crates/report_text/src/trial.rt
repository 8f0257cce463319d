// The program of a trial.
ghost use Rattle.std.specs.Prelude.{◌≡◌, ◌<◌, ◌-◌, ◌^◌, ◌++◌, decimal, IfOk, OnOk, string_bytes};
ghost use Rattle.report_text.specs.Trial.{append_line, append_lines, copied_text, copy_line, copy_lines, trial_text, trial_function};
ghost use Rattle.report_text.specs.Trial.{trial_data, functions_line};

use itoa::Buffer;
use std::alloc::{AllocError, Global};

/// The source of the program of a trial: so many functions that append lists, and as many that copy
/// one, each on a line of its own.
pub fn trial_source(alloc: Global, count: u32) -> Result<String, AllocError>
    ensures { IfOk result (λ text. string_bytes text ≡ trial_text count) }
{
    let mut text = String::new(alloc);
    push_appends(&mut text, count)?;
    push_copies(&mut text, count)?;
    Ok(text)
}

fn push_appends(text: &mut String, count: u32) -> Result<(), AllocError>
    ensures { OnOk result (string_bytes text.new ≡ string_bytes text.old ++ append_lines count) }
{
    for before in 0..count {
        push_append(text, before)?;
    }
    Ok(())
}

// Appends the function that appends lists, behind so many before it.
fn push_append(text: &mut String, before: u32) -> Result<(), AllocError>
    requires { before < 2 ^ 32 - 1 }
    ensures { OnOk result (string_bytes text.new ≡ string_bytes text.old ++ append_line before) }
{
    push_numbered(text, "fun a", before + 1)?;
    push_numbered(
        text,
        " (x : int list, y : int list) : int list = match x with nil -> y | h :: t -> h :: a",
        before + 1,
    )?;
    text.push_str("(t, y)\n")
}

fn push_copies(text: &mut String, count: u32) -> Result<(), AllocError>
    ensures { OnOk result (string_bytes text.new ≡ string_bytes text.old ++ copy_lines count) }
{
    for before in 0..count {
        push_copy(text, before)?;
    }
    Ok(())
}

// Appends the function that copies a list, behind so many before it.
fn push_copy(text: &mut String, before: u32) -> Result<(), AllocError>
    requires { before < 2 ^ 32 - 1 }
    ensures { OnOk result (string_bytes text.new ≡ string_bytes text.old ++ copy_line before) }
{
    push_numbered(text, "fun c", before + 1)?;
    push_numbered(text, " (x : int list) : int list = a", before + 1)?;
    text.push_str("(")?;
    push_copied(text, before)?;
    text.push_str(", nil)\n")
}

// Appends what such a function copies.
fn push_copied(text: &mut String, before: u32) -> Result<(), AllocError>
    ensures { OnOk result (string_bytes text.new ≡ string_bytes text.old ++ copied_text before) }
{
    if before == 0 {
        return text.push_str("x");
    }
    push_numbered(text, "c", before)?;
    text.push_str("(x)")
}

// Appends words and a number.
fn push_numbered(text: &mut String, words: &str, number: u32) -> Result<(), AllocError>
    ensures { OnOk result (string_bytes text.new ≡ string_bytes text.old ++ words.now ++ decimal number) }
{
    text.push_str(words)?;
    text.push_str(Buffer::new().format(number))
}

/// The name of the function of a trial that runs.
pub fn trial_function(alloc: Global, count: u32) -> Result<String, AllocError>
    ensures { IfOk result (λ text. string_bytes text ≡ trial_function count) }
{
    let mut text = String::new(alloc);
    push_numbered(&mut text, "c", count)?;
    Ok(text)
}

/// The data that it runs on.
pub fn trial_data() -> &'static str
    ensures { result.now ≡ trial_data }
{
    "[1, 2, 3, 4, 5, 6, 7, 8, 9, 10]"
}

/// The line that tells how many functions the program of a trial has.
pub fn functions_line(alloc: Global, count: u32) -> Result<String, AllocError>
    ensures { IfOk result (λ text. string_bytes text ≡ functions_line count) }
{
    let mut text = String::from_str(alloc, "functions ")?;
    text.push_str(Buffer::new().format(u64::from(count) * 2))?;
    text.push_str("\n")?;
    Ok(text)
}
