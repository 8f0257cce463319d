// Calls and returns.
ghost use Rattle.std.specs.Prelude.{◌≡◌, ◌+◌, ◌<◌, length, slice_get, OnOk, OnErr, IfSome};
ghost use Rattle.raml_syntax.specs.Read.{program_of};
ghost use Rattle.stack_compile.specs.Code.{bodies_of};
ghost use Rattle.stack_compile.specs.Ready.{HasArguments};
ghost use Rattle.stack_compile.specs.declared.instr.Instr.TheVariants as i;
ghost use Rattle.value_text.specs.Heap.{IsBelow};
ghost use Rattle.metered_vm.specs.Running.{IsSound, HasRoom, Grew, Stays, counted, stack_in, state_of};
ghost use Rattle.metered_vm.specs.Moving.{CanMake, Comes, acts, calls};

use crate::machine::{Frame, Machine};
use crate::operands::pop;
use raml_syntax::FunId;
use stack_compile::Code;
use std::alloc::AllocError;
use value_text::Word;

/// Enters a function: its arguments leave the stack and become its first locals.
pub fn call(code: &Code, m: &mut Machine, fun: FunId) -> Result<(), AllocError>
    requires sound { IsSound m.old }
    requires finds { HasArguments (slice_get (bodies_of (program_of code.now)) fun.0) (stack_in m.old) }
    requires room { HasRoom m.old }
    ensures does { OnOk result (counted (state_of m.new) ≡ calls (bodies_of (program_of code.now)) fun (state_of m.old)) }
    ensures grew { OnOk result (Grew m.old m.new) }
    ensures stays { OnErr result (Stays m.old m.new) }
    ensures sound { IsSound m.new }
{
    let arity = code.function(fun).arity as usize;
    let left = m.stack.len() - arity;
    let base = m.locals.len();
    m.frames.reserve(1)?;
    m.locals.extend_from_slice(&m.stack[left..])?;
    m.stack.truncate(left);
    let frame = Frame {
        fun: m.fun,
        place: m.place + 1,
        locals: base - m.base,
    };
    m.frames.push(frame).unwrap();
    m.base = base;
    m.fun = fun;
    m.place = 0;
    Ok(())
}

/// Leaves a function: goes on where it was called. From the first function the machine halts with the
/// word that this gives.
pub fn leave(m: &mut Machine) -> Option<Word>
    requires sound { IsSound m.old }
    requires finds { CanMake i.Return m.old }
    requires room { HasRoom m.old }
    ensures does { Comes result m.new (acts i.Return (state_of m.old)) }
    ensures word { IfSome result (IsBelow (length m.new.heap.cells)) }
    ensures grew { Grew m.old m.new }
    ensures sound { IsSound m.new }
{
    match m.frames.pop() {
        Some(frame) => {
            m.locals.truncate(m.base);
            m.base -= frame.locals;
            m.fun = frame.fun;
            m.place = frame.place;
            None
        }
        None => Some(pop(&mut m.stack)),
    }
}
