// What can be tried.
ghost use Rattle.std.specs.Prelude.{List, IfOk, IfSome};
ghost use Rattle.explain_trials.specs.declared.trial.Trial.{Trial};

use explain_trials::Trial;
use std::alloc::{AllocError, Global};

/// Changes of one kind to a program, some of which can be made together.
pub trait Attempt<Change> {
    /// Whether they can be tried.
    ghost is_ready: { Self → Type 0 };

    /// The changes were made, and this is what analyses find.
    ghost tried: { Self → List Change → Trial → Type 0 };

    /// What analyses find where the changes are made. None where they can't be made together.
    fn attempt(&self, alloc: Global, changes: &[Change]) -> Result<Option<Trial>, AllocError>
        requires { is_ready self.now }
        ensures { IfOk result (λ trial. IfSome trial (tried self.now changes.now)) };
}
