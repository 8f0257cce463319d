// What the conditions of a walk are told to.
ghost use Rattle.std.specs.Prelude.{◌≡◌, ◌++◌, [], List, OnOk};
ghost use Rattle.rules_spec.specs.Numbers.{Condition};
ghost use Rattle.rules_spec.specs.Walk.{against, numbered};

use crate::kind::Kind;
use std::alloc::{AllocError, Global};

/// What hears the conditions of a walk, form by form and in order, and comes to a verdict.
pub trait Judge<T: Kind>: Drop {
    ghost Verdict: { Type 0 };

    ghost verdict: { Self → Verdict };

    ghost after: { Verdict → List (Condition T) → Verdict };

    /// Each entry on the right is to be at most the one at its place on the left. The path leads to the
    /// form, and the first of these conditions has this index there.
    fn hear(
        &mut self,
        alloc: Global,
        path: &[u32],
        index: usize,
        left: &[T],
        right: &[T],
    ) -> Result<(), AllocError>
        ensures { OnOk result (verdict self.new ≡ after (verdict self.old) (numbered path.now index (against T.kind left.now right.now))) };

    ghost silent: { (v : Verdict) → after v [] ≡ v };

    ghost in_turn: { (v : Verdict) (cs ds : List (Condition T)) → after (after v cs) ds ≡ after v (cs ++ ds) };
}
