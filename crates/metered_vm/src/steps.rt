// Steps and runs of a machine that goes on.
ghost use Rattle.std.specs.Prelude.{◌≡◌, ℕ, ◌+◌, ◌-◌, ◌*◌, ◌^◌, ◌<◌, ◌≤◌, ◌↔◌, Some, slice_get, IsTrue, IfOk, OnErr};
ghost use Rattle.raml_syntax.specs.Read.{program_of};
ghost use Rattle.stack_compile.specs.Code.{bodies_of};
ghost use Rattle.stack_compile.specs.Machine.{after};
ghost use Rattle.stack_compile.specs.Ready.{Ready};
ghost use Rattle.stack_compile.specs.declared.instr.Instr.{Instr};
ghost use Rattle.metered_vm.specs.Running.{IsSound, Stays, state_of};
ghost use Rattle.metered_vm.specs.Stepping.{Steps, Came, EndsAt, Goes, word_of, body_at};

use crate::acts;
use crate::calls::{call, leave};
use crate::end::End;
use crate::machine::Machine;
use raml_syntax::ArithOp;
use stack_compile::{Code, Instr};
use std::alloc::AllocError;
use value_text::Word;

/// What comes of a step.
pub enum Outcome {
    /// The instruction is made.
    Made,
    /// It is made, and the next one may be of another function.
    Moved,
    /// It is made, and the machine has halted with the word.
    Halted(Word),
    /// It takes a cell, and none is left.
    Full,
}

/// The instructions of the machine's function.
#[tactic(auto, using(crate::proofs::Fetching::function_there))]
fn body<'c>(code: &'c Code<'_>, m: &Machine) -> &'c [Instr]
    requires { Ready (bodies_of (program_of code.now)) (state_of m.now).at }
    ensures { result.now ≡ body_at (bodies_of (program_of code.now)) m.now }
{
    code.body(m.fun)
}

/// The instruction at a place.
fn fetch(body: &[Instr], place: usize) -> Instr
    requires { (i : Instr) × (slice_get body.now place ≡ Some i) }
    ensures is { slice_get body.now place ≡ Some result }
    ensures fits { place + 1 < 2 ^ 64 }
{
    body[place]
}

/// Whether no cell is left.
fn is_full(m: &Machine) -> bool
    ensures { IsTrue result ↔ (m.now.cells ≡ m.now.limit) }
{
    m.cells == m.limit
}

/// Makes the next instruction, which the caller counts. The body is that of the machine's function.
#[tactic(auto, using(crate::proofs::Fetching::fetch_is, crate::proofs::Fetching::step_is, crate::proofs::Fetching::finds_at, crate::proofs::Fetching::there_at))]
fn step(code: &Code, body: &[Instr], m: &mut Machine) -> Result<Outcome, AllocError>
    requires body { body.now ≡ body_at (bodies_of (program_of code.now)) m.old }
    requires sound { IsSound m.old }
    requires ready { Ready (bodies_of (program_of code.now)) (state_of m.old).at }
    requires room { m.old.ticks + 2 ^ 32 < 2 ^ 64 }
    ensures does { IfOk result (Steps (bodies_of (program_of code.now)) m.old m.new) }
    ensures stays { OnErr result (Stays m.old m.new) }
    ensures sound { IsSound m.new }
{
    match fetch(body, m.place) {
        Instr::Int(n) => acts::push(m, Word::Int(n))?,
        Instr::Bool(b) => acts::push(m, Word::Bool(b))?,
        Instr::Empty => acts::push(m, Word::Empty)?,
        Instr::Load(k) => acts::load(m, k)?,
        Instr::Bind => acts::bind(m)?,
        Instr::Unbind(k) => acts::unbind(m, k),
        Instr::Add => acts::arith(m, ArithOp::Add),
        Instr::Sub => acts::arith(m, ArithOp::Sub),
        Instr::Mul => acts::arith(m, ArithOp::Mul),
        Instr::Div => acts::arith(m, ArithOp::Div),
        Instr::Mod => acts::arith(m, ArithOp::Mod),
        Instr::Compare(op) => acts::compare(m, op),
        Instr::Not => acts::negate(m),
        Instr::Pair | Instr::Cons | Instr::Node | Instr::Some if is_full(m) => return Ok(
            Outcome::Full,
        ),
        Instr::Pair => acts::pair(m),
        Instr::Cons => acts::cons(m),
        Instr::Node => acts::node(m),
        Instr::Some => acts::some(m),
        Instr::Unpair => acts::unpair(m)?,
        Instr::CaseList(to) => acts::case_list(m, to)?,
        Instr::CaseTree(to) => acts::case_tree(m, to)?,
        Instr::CaseOption(to) => acts::case_option(m, to)?,
        Instr::Branch(to) => acts::fork(m, to),
        Instr::Jump(to) => acts::jump(m, to),
        Instr::Call(fun) => {
            call(code, m, fun)?;
            return Ok(Outcome::Moved);
        }
        Instr::Return => match leave(m) {
            Some(word) => return Ok(Outcome::Halted(word)),
            None => return Ok(Outcome::Moved),
        },
        Instr::Tick(n) => acts::tick(m, n),
    }
    Ok(Outcome::Made)
}

/// Makes instructions until `steps` are made in all, the machine halts, or the next one takes a cell that is
/// not left.
pub fn run(code: &Code, m: &mut Machine, steps: u64) -> Result<End, AllocError>
    requires sound { IsSound m.old }
    requires ready { (k : ℕ) → Ready (bodies_of (program_of code.now)) (after (bodies_of (program_of code.now)) k (state_of m.old)).at }
    requires few { (m.old.made ≤ steps) × (steps ≤ 1000000000) × (m.old.ticks ≤ m.old.made * 2 ^ 32) }
    ensures state { Came (word_of result) m.new (after (bodies_of (program_of code.now)) (m.new.made - m.old.made) (state_of m.old)) }
    ensures ends { IfOk result (EndsAt (bodies_of (program_of code.now)) steps m.new) }
    ensures goes { Goes steps m.old m.new }
    ensures sound { IsSound m.new }
{
    let mut current = body(code, m);
    while m.made < steps {
        match step(code, current, m)? {
            Outcome::Made => {}
            Outcome::Moved => current = body(code, m),
            Outcome::Halted(word) => {
                m.made += 1;
                return Ok(End::Halted { word });
            }
            Outcome::Full => return Ok(End::HeapFull),
        }
        m.made += 1;
    }
    Ok(End::Stopped)
}
