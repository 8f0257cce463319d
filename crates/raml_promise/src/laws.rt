// Laws of calls: each is the contract of a function that does nothing.
ghost use Rattle.raml_promise.specs.Again.{WrittenVerifies};
ghost use Rattle.raml_promise.specs.Known.{KnownLaws};
ghost use Rattle.raml_promise.specs.Promise.{CausesForce};

use bound_file::laws::files_have_one_answer;
use bound_infer::laws::certificates_verify;
use cert_check::laws::faultless_exactly;
use infer_spec::laws::{ends_or_stops, none_too_large, one_certificate, one_place};
use infer_systems_laws::laws::{normals_are_ordered, ordered_are_proper, systems_generate};

/// What is needed for an answer brings it, or want of memory, where each answer comes by its cause alone.
pub fn causes_force()
    ensures { CausesForce }
{
    known_laws();
}

/// What `certify` wrote is verified again, where the call came to its end by its cause.
pub fn written_verifies()
    ensures { WrittenVerifies }
{
    known_laws();
}

// What is known of courses, of certificates, and of files of declared bounds.
fn known_laws()
    ensures { KnownLaws }
{
    one_certificate();
    ends_or_stops();
    one_place();
    systems_generate();
    normals_are_ordered();
    files_have_one_answer();
    ordered_are_proper();
    faultless_exactly();
    none_too_large();
    certificates_verify();
}
