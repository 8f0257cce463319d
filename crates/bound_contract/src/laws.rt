// Laws of declared bounds: each is the contract of a function that does nothing.
ghost use Rattle.bound_contract.specs.Decided.{CallsExactly, DecidedOnce, OneOwn, OwnsAreThere};
ghost use Rattle.bound_contract.specs.Example.{Examples};
ghost use Rattle.bound_contract.specs.Clear.{AllFineIsClear, SeenIsFirst};
ghost use Rattle.bound_contract.specs.Laws.{DeclaredIsSystem, KeptIsBound, LineRowsAreNeeded, LinesHaveNumbers, OthersUnderAreBounds};
ghost use Rattle.bound_contract.specs.Laws.{RaisedDecideAlike, ReadLeavesAlone, ReadingsDecide, RefutedIsNotKept, SolutionsKeep};
ghost use Rattle.bound_contract.specs.Laws.{WhatKeepsSolves};

use infer_spec::laws::blocks_are_there;
use infer_systems_laws::laws::{ordered_are_proper, tried_have_tasks};
use other_blocks::laws::one_other_fault;
use simplex_spec::one_course;

/// Each solution of a system with a declared bound stands for what holds under the bound.
pub fn solutions_keep()
    ensures { SolutionsKeep }
{}

/// What holds under a declared bound comes from a solution.
pub fn what_keeps_solves()
    ensures { WhatKeepsSolves }
{}

/// Where a vector refutes the system, nothing holds under the bound.
pub fn refuted_is_not_kept()
    ensures { RefutedIsNotKept }
{}

/// No row of a declared bound may be left out.
pub fn line_rows_are_needed()
    ensures { LineRowsAreNeeded }
{}

/// A task's system with a declared bound is a system.
pub fn declared_is_system()
    ensures { DeclaredIsSystem }
{}

/// What is read where pivots end or rise decides whether a bound is kept.
pub fn readings_decide()
    ensures { ReadingsDecide }
{
    tried_have_tasks();
}

/// A declared bound that is kept bounds what the function costs.
pub fn kept_is_bound()
    ensures { KeptIsBound }
{}

/// The numbers of a declared bound stand over one denominator.
pub fn lines_have_numbers()
    ensures { LinesHaveNumbers }
{}

/// A place that is seen after all that is tried before it was fine comes first.
pub fn seen_is_first()
    ensures { SeenIsFirst }
{
    one_course();
    one_other_fault();
}

/// Where all that is computed for a line fits, no place comes.
pub fn fine_is_clear()
    ensures { AllFineIsClear }
{
    one_course();
    one_other_fault();
}

/// Small systems come out as they should.
pub fn examples()
    ensures { Examples }
{}

/// Another block whose annotation lies under a declared bound keeps it, so that the bound holds.
pub fn others_under_are_bounds()
    ensures { OthersUnderAreBounds }
{}

/// What a solution stands for is refused over the certificate for a total alone.
pub fn read_leaves_alone()
    ensures { ReadLeavesAlone }
{
    tried_have_tasks();
    ordered_are_proper();
}

/// A declared bound is kept, or not kept, or its task waits, and only one of these.
pub fn decided_once()
    ensures { DecidedOnce }
{}

/// A block of a certificate that is held waits exactly where the schedule says so.
pub fn calls_exactly()
    ensures { CallsExactly }
{}

/// What is decided stays the same, however far later groups raise the meter's blocks.
pub fn raised_decide_alike()
    ensures { RaisedDecideAlike }
{}

/// A certificate that is held has a block for the meter and the function of a declared bound.
pub fn owns_are_there()
    ensures { OwnsAreThere }
{
    blocks_are_there();
}

/// It is one.
pub fn one_own()
    ensures { OneOwn }
{}
