// Laws of a task's system: each is the contract of a function that does nothing.
ghost use Rattle.rules_systems_laws.specs.Laws.{ArgumentsAreUnknowns, NumbersAreTold, SolutionsHold, SolutionsWeigh, WhatHoldsSolves};
ghost use Rattle.rules_systems_laws.specs.Shaped.{ShapedAreTasks, TargetsAreNumbered};

use cost_free::laws::blockers_are_least;

/// Each solution of a task's system stands for signatures and hints that hold.
pub fn solutions_hold()
    ensures { SolutionsHold }
{}

/// The weighted sum of a solution is that of the signatures that it stands for.
pub fn solutions_weigh()
    ensures { SolutionsWeigh }
{}

/// Numbers for the unknowns of a function's arguments are those of the signature that they stand for.
pub fn numbers_are_told()
    ensures { NumbersAreTold }
{}

/// The unknowns of a function's arguments are among those of the system.
pub fn arguments_are_unknowns()
    ensures { ArgumentsAreUnknowns }
{}

/// All signatures and hints that hold come from a solution, which tells these very signatures.
pub fn what_holds_solves()
    ensures { WhatHoldsSolves }
{}

/// The number of a cost-free task is that of a target of its function.
pub fn targets_are_numbered()
    ensures { TargetsAreNumbered }
{}

/// The next task of a schedule, where it waits for no function, is a task over the blocks before it, of which it is
/// asked that they have their signatures, and not that they hold.
pub fn shaped_are_tasks()
    ensures { ShapedAreTasks }
{
    blockers_are_least();
}
