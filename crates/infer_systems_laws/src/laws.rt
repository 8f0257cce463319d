// Laws of tasks that are tried, and of the systems of a program: each is the contract of a function that does nothing.
ghost use Rattle.infer_systems_laws.specs.Laws.{LimitsAreTold, NormalsAreOrdered, OrderedAreProper, SystemsGenerate};
ghost use Rattle.infer_systems_laws.specs.Tried.{TriedAreTasks, TriedHaveSystems, TriedHaveTasks};

use cost_free::laws::blockers_are_least;
use rules_spec::laws::systems_are_walked;
use rules_systems_laws::laws::{shaped_are_tasks, targets_are_numbered};

/// The systems of a program's tasks are what courses ask for.
pub fn systems_generate()
    ensures { SystemsGenerate }
{
    tried_are_tasks();
    tried_have_systems();
    targets_are_numbered();
}

/// The limits of indices are told as they are.
#[tactic(auto, using(crate::proofs::Limits::limits_are_told))]
pub fn limits_are_told()
    ensures { LimitsAreTold }
{}

/// The normal form of a typed program is ordered.
#[tactic(auto, using(crate::proofs::Ordered::normals_are_ordered))]
pub fn normals_are_ordered()
    ensures { NormalsAreOrdered }
{
    blockers_are_least();
}

/// A program that is ordered is proper.
#[tactic(auto, using(crate::proofs::Proper::ordered_are_proper))]
pub fn ordered_are_proper()
    ensures { OrderedAreProper }
{}

/// The next task of a course, where it is tried, is a task over the blocks before it.
#[tactic(auto, using(crate::proofs::Tried::tried_are_tasks))]
pub fn tried_are_tasks()
    ensures { TriedAreTasks }
{
    shaped_are_tasks();
}

/// It has a system.
pub fn tried_have_systems()
    ensures { TriedHaveSystems }
{
    shaped_are_tasks();
    systems_are_walked();
}

/// A block of a held certificate that was tried is of a task that has a system.
pub fn tried_have_tasks()
    ensures { TriedHaveTasks }
{
    tried_are_tasks();
    tried_have_systems();
}
