// Code as text.
ghost use Rattle.std.specs.Prelude.{◌≡◌, ◌++◌, ◌<◌, ◌^◌, codes, decimal, string_bytes, slice_get, length, map, vec_len, IfOk, OnOk};
ghost use Rattle.raml_syntax.specs.Read.{program_of, function_of};
ghost use Rattle.stack_compile.specs.Code.{bodies_of};
ghost use Rattle.stack_compile.specs.Read.{code_at};
ghost use Rattle.stack_compile.specs.Text.{word_of, sign_of, name_in, operand_of, line_text, lines_text, function_text, functions_text};
ghost use Rattle.stack_compile.specs.Text.{code_text};
ghost use Rattle.std.specs.Option.{option_map};

use crate::code::Code;
use crate::instr::Instr;
use itoa::Buffer;
use raml_syntax::{CompareOp, Fun, FunId};
use std::alloc::{AllocError, Global};

/// The code as text: for each function `fun` and its name, and then a line for each instruction, as in
/// `4 Call append`. Only memory can be wanting.
pub fn print(alloc: Global, code: &Code) -> Result<String, AllocError>
    ensures { IfOk result (λ text. string_bytes text ≡ code_text (program_of code.now)) }
{
    let funs = code.program().funs.as_slice();
    let mut text = String::new(alloc);
    for (place, fun) in funs.iter().enumerate() {
        let body = code.body(FunId(place as u32));
        push_function(&mut text, funs, fun.name.text(), body)?;
    }
    Ok(text)
}

/// Appends the name of a function, and a line for each of its instructions.
fn push_function(
    text: &mut String,
    funs: &[Fun],
    name: &str,
    code: &[Instr],
) -> Result<(), AllocError>
    ensures { OnOk result (string_bytes text.new ≡ string_bytes text.old ++ function_text (map function_of funs.now) name.now code.now) }
{
    text.push_str("fun ")?;
    text.push_str(name)?;
    text.push_str("\n")?;
    push_lines(text, funs, code)
}

/// Appends a line for each instruction.
fn push_lines(text: &mut String, funs: &[Fun], code: &[Instr]) -> Result<(), AllocError>
    ensures { OnOk result (string_bytes text.new ≡ string_bytes text.old ++ lines_text (map function_of funs.now) 0 code.now) }
{
    for (place, instr) in code.iter().enumerate() {
        push_line(text, funs, place, *instr)?;
    }
    Ok(())
}

/// Appends the line of an instruction at a place.
fn push_line(text: &mut String, funs: &[Fun], place: usize, instr: Instr) -> Result<(), AllocError>
    ensures { OnOk result (string_bytes text.new ≡ string_bytes text.old ++ line_text (map function_of funs.now) place instr) }
{
    text.push_str(Buffer::new().format(place))?;
    text.push_str(" ")?;
    text.push_str(word(instr))?;
    push_operand(text, funs, instr)?;
    text.push_str("\n")
}

/// The word of an instruction.
fn word(instr: Instr) -> &'static str
    ensures { result.now ≡ word_of instr }
{
    match instr {
        Instr::Int(_) => "Int",
        Instr::Bool(_) => "Bool",
        Instr::Empty => "Empty",
        Instr::Load(_) => "Load",
        Instr::Bind => "Bind",
        Instr::Unbind(_) => "Unbind",
        Instr::Add => "Add",
        Instr::Sub => "Sub",
        Instr::Mul => "Mul",
        Instr::Div => "Div",
        Instr::Mod => "Mod",
        Instr::Compare(_) => "Compare",
        Instr::Not => "Not",
        Instr::Pair => "Pair",
        Instr::Cons => "Cons",
        Instr::Node => "Node",
        Instr::Some => "Some",
        Instr::Unpair => "Unpair",
        Instr::CaseList(_) => "CaseList",
        Instr::CaseTree(_) => "CaseTree",
        Instr::CaseOption(_) => "CaseOption",
        Instr::Branch(_) => "Branch",
        Instr::Jump(_) => "Jump",
        Instr::Call(_) => "Call",
        Instr::Return => "Return",
        Instr::Tick(_) => "Tick",
    }
}

/// Appends what stands behind an instruction's word.
fn push_operand(text: &mut String, funs: &[Fun], instr: Instr) -> Result<(), AllocError>
    ensures { OnOk result (string_bytes text.new ≡ string_bytes text.old ++ operand_of (map function_of funs.now) instr) }
{
    match instr {
        Instr::Int(number) => push_word(text, Buffer::new().format(number)),
        Instr::Bool(true) => text.push_str(" true"),
        Instr::Bool(false) => text.push_str(" false"),
        Instr::Compare(op) => push_word(text, sign(op)),
        Instr::Call(fun) => push_word(text, name(funs, fun)),
        Instr::Load(k)
        | Instr::Unbind(k)
        | Instr::CaseList(k)
        | Instr::CaseTree(k)
        | Instr::CaseOption(k)
        | Instr::Branch(k)
        | Instr::Jump(k)
        | Instr::Tick(k) => push_word(text, Buffer::new().format(k)),
        _ => Ok(()),
    }
}

/// Appends a space and a word.
fn push_word(text: &mut String, word: &str) -> Result<(), AllocError>
    ensures { OnOk result (string_bytes text.new ≡ string_bytes text.old ++ (codes " " ++ word.now)) }
{
    text.push_str(" ")?;
    text.push_str(word)
}

/// The sign of a comparison.
fn sign(op: CompareOp) -> &'static str
    ensures { result.now ≡ sign_of op }
{
    match op {
        CompareOp::Equal => "=",
        CompareOp::Less => "<",
        CompareOp::AtMost => "<=",
    }
}

/// The name of a function.
fn name(funs: &[Fun], fun: FunId) -> &str
    ensures { result.now ≡ name_in (slice_get (map function_of funs.now) fun.0) }
{
    match funs.get(fun.0 as usize) {
        Some(fun) => fun.name.text(),
        None => "",
    }
}
