// Laws of the machine: each is the contract of a function that does nothing.
ghost use Rattle.stack_compile.specs.Laws.{MachineIsLinked};
ghost use Rattle.stack_compile.specs.Example.{Examples};

/// In a typed program the machine halts with a value exactly where evaluation has it, with the same ticks
/// and cells, in at most 4 instructions a unit of work. After some instructions it costs no more than
/// evaluation at any depth limit that is no less, and where it goes on, evaluation at the next limit has more
/// than a quarter as much work. No instruction misses what it takes.
#[tactic(auto, using(crate::proofs::Linked::machine_is_linked))]
pub fn machine_is_linked()
    ensures { MachineIsLinked }
{}

/// The codes and the runs of small programs are those worked out by hand.
pub fn small_programs()
    ensures { Examples }
{}
