//! Integer checks of the vectors that a linear program's answer comes with.
#![tactic(auto)]

ghost use Rattle.std.specs.Prelude.{◌≡◌, ◌<ℤ◌, ◌↔◌, ℕ, pos, length};
ghost use Rattle.raml_num.specs.Sums.{NoneNegative};
ghost use Rattle.linear_rows.specs.Systems.{ProvesLeast, Refutes};
ghost use Rattle.farkas_check.specs.Checks.{IsVerdict, EachFits, refuting, proving_least};

mod columns;
mod fault;
mod totals;

use linear_rows::System;
use std::alloc::Global;

/// What a check answers. `column` is an unknown's number; the number of unknowns stands for the
/// right sides, and for the rows.
#[derive(Clone, Copy, PartialEq, Eq, Debug)]
pub enum Verdict {
    Yes,
    /// The first column that fails.
    No { column: u32 },
    /// The first column where the total of the positive terms or that of the negative ones does not
    /// fit 128 bits, if no column before it fails.
    Leaves { column: u32 },
}

/// Whether `y`, a number for each row, refutes the system: `y A` is at most 0 at each unknown, and
/// `y b` is positive. So no solution exists. This takes no memory.
pub fn refutes(system: &System, y: &[i128]) -> Verdict
    requires one_each { length y.now ≡ length system.now.rows }
    requires natural { NoneNegative y.now }
    ensures first { IsVerdict (refuting system.now y.now) result }
    ensures yes { result ≡ Verdict.Yes ↔ (Refutes system.now y.now × EachFits (refuting system.now y.now)) }
    ensures no { (c : ℕ) → result ≡ Verdict.No c → Refutes system.now y.now → ⊥ }
{
    fault::of_refuting(None, system, y).unwrap_or(Verdict::Yes)
}

/// What `refutes` answers. Where there is memory for a total of each column, one walk over the rows is
/// enough; where there is none, each column has a walk of its own.
pub fn refutes_quickly(alloc: Global, system: &System, y: &[i128]) -> Verdict
    requires one_each { length y.now ≡ length system.now.rows }
    requires natural { NoneNegative y.now }
    ensures first { IsVerdict (refuting system.now y.now) result }
    ensures same { (plain : Verdict) → IsVerdict (refuting system.now y.now) plain → result ≡ plain }
    ensures yes { result ≡ Verdict.Yes ↔ (Refutes system.now y.now × EachFits (refuting system.now y.now)) }
    ensures no { (c : ℕ) → result ≡ Verdict.No c → Refutes system.now y.now → ⊥ }
{
    fault::of_refuting(Some(alloc), system, y).unwrap_or(Verdict::Yes)
}

/// Whether `x` over `scale`, a number for each unknown, is a least solution of the system, since `y`
/// over `scale`, a number for each row, is a dual solution with the same sum. This takes no memory.
pub fn least(system: &System, x: &[i128], y: &[i128], scale: i128) -> Verdict
    requires each_unknown { length x.now ≡ system.now.unknowns }
    requires each_row { length y.now ≡ length system.now.rows }
    requires x_natural { NoneNegative x.now }
    requires y_natural { NoneNegative y.now }
    requires positive { pos 0 <ℤ scale }
    ensures first { IsVerdict (proving_least system.now x.now y.now scale) result }
    ensures yes { result ≡ Verdict.Yes
        ↔ (ProvesLeast system.now x.now y.now scale × EachFits (proving_least system.now x.now y.now scale)) }
    ensures no { (c : ℕ) → result ≡ Verdict.No c → ProvesLeast system.now x.now y.now scale → ⊥ }
{
    fault::of_least(None, system, x, y, scale).unwrap_or(Verdict::Yes)
}

/// What `least` answers. Where there is memory for a total of each column, one walk over the rows is
/// enough; where there is none, each column has a walk of its own.
pub fn least_quickly(alloc: Global, system: &System, x: &[i128], y: &[i128], scale: i128) -> Verdict
    requires each_unknown { length x.now ≡ system.now.unknowns }
    requires each_row { length y.now ≡ length system.now.rows }
    requires x_natural { NoneNegative x.now }
    requires y_natural { NoneNegative y.now }
    requires positive { pos 0 <ℤ scale }
    ensures first { IsVerdict (proving_least system.now x.now y.now scale) result }
    ensures same { (plain : Verdict) → IsVerdict (proving_least system.now x.now y.now scale) plain → result ≡ plain }
    ensures yes { result ≡ Verdict.Yes
        ↔ (ProvesLeast system.now x.now y.now scale × EachFits (proving_least system.now x.now y.now scale)) }
    ensures no { (c : ℕ) → result ≡ Verdict.No c → ProvesLeast system.now x.now y.now scale → ⊥ }
{
    fault::of_least(Some(alloc), system, x, y, scale).unwrap_or(Verdict::Yes)
}
