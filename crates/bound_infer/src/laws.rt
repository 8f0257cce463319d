// Laws of refuted blocks: each is the contract of a function that does nothing.
ghost use Rattle.bound_infer.specs.Laws.{CertificatesVerify, RefutedAreTasks, VectorsRefute};

use cert_check::laws::held_leaves_alone;
use infer_spec::laws::{courses_certify, courses_stay_within, none_too_large, none_unrefuted};
use infer_systems_laws::laws::{limits_are_told, systems_generate, tried_are_tasks};
use linear_rows::refuted_has_no_solution;
use rules_systems_laws::laws::what_holds_solves;

/// Each refuted block of a held certificate is of a task that has a system.
pub fn refuted_are_tasks()
    ensures { RefutedAreTasks }
{
    tried_are_tasks();
}

/// Where the vector of a refuted block refutes the system of its task, nothing holds for the task.
pub fn vectors_refute()
    ensures { VectorsRefute }
{
    tried_are_tasks();
    what_holds_solves();
    refuted_has_no_solution();
}

/// The certificate in which an analysis ends has no fault but a number that leaves 128 bits.
pub fn certificates_verify()
    ensures { CertificatesVerify }
{
    systems_generate();
    limits_are_told();
    courses_certify();
    courses_stay_within();
    none_too_large();
    none_unrefuted();
    held_leaves_alone();
}
