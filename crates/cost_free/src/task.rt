// Tasks.
use raml_syntax::FunId;

/// What a bound counts.
#[derive(Clone, Copy, Debug, PartialEq, Eq)]
pub enum Meter {
    Ticks,
    Cells,
    /// The nodes of the source that are visited.
    Work,
}

/// One block that an analysis looks for.
#[derive(Clone, Copy, Debug, PartialEq, Eq)]
pub struct Task {
    /// The place of the group among the groups of the program.
    pub group: u32,
    pub kind: TaskKind,
}

/// What is looked for.
#[derive(Clone, Copy, Debug, PartialEq, Eq)]
pub enum TaskKind {
    /// Signatures without cost, of degree at most the budget, that reach a target of a function: the
    /// one of this number.
    Free { budget: u8, fun: FunId, target: u32 },
    /// Signatures that pay for a meter.
    With(Meter),
}

/// How a task came out.
#[derive(Clone, Copy, Debug, PartialEq, Eq)]
pub enum Done {
    Solved,
    /// There is no solution.
    Refuted,
    /// It was not tried, since a function that the group calls has no bound.
    Calls,
}
