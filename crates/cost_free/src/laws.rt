// Laws of targets and of the schedule: each is the contract of a function that does nothing.
ghost use Rattle.cost_free.specs.Example.{TargetExamples, ScheduleExamples};
ghost use Rattle.cost_free.specs.Laws.{BlockersAreLeast};

/// The targets of small types are as they were worked out.
pub fn small_targets()
    ensures { TargetExamples }
{}

/// Small schedules are as they were worked out.
pub fn small_schedules()
    ensures { ScheduleExamples }
{}

/// What a task waits for is in its way, and is the least such function; a task that waits for none has
/// none in its way.
#[tactic(auto, using(crate::proofs::Least::blockers_are_least))]
pub fn blockers_are_least()
    ensures { BlockersAreLeast }
{}
