// The maps.
ghost use Rattle.std.specs.Prelude.{◌≡◌, ◌≢◌, ◌≤◌, ◌<◌, ◌⊎◌, List, [], length, slice_get, Some, IfOk, OnOk, IsErrOf};
ghost use Rattle.raml_syntax.specs.Tree.{Type', PairOf, ListOf, TreeOf, OptionOf};
ghost use Rattle.raml_syntax.specs.Value.{Value, Both, Empty, Cons, Node, Just};
ghost use Rattle.base_poly.specs.Read.{context_of};
ghost use Rattle.index_shift.specs.Parts.{type_parts, value_parts};
ghost use Rattle.index_shift.specs.Maps.{Carry, in_place, none, twice, behind, entries, opening, leaving, sharing, IsTooLarge};
ghost use Rattle.index_shift.specs.Laws.{KeepsParts, KeepsRest, KeepsZero, LowersRest, KeepsShared};
ghost use Rattle.index_shift.specs.Local.{IsLocal};

use crate::entry::Entry;
use crate::fault::MapFault;
use crate::local::{Local, MOST};
use base_poly::degrees;
use raml_syntax::Ty;
use std::alloc::Global;

/// The map from a context to the one in which head and tail stand for the list at `at`.
///
/// `TooMany` where one of the two contexts has more than 2000 indices of degree at most `d`.
pub fn shift_list(alloc: Global, context: &[Ty], at: usize, d: u8) -> Result<Vec<Entry>, MapFault>
    requires list { (A : Type') × (slice_get (context_of context.now) at ≡ Some (ListOf A)) }
    requires low { d ≤ 4 }
    ensures map { IfOk result (λ found. found.items ≡ opening (context_of context.now) at d) }
    ensures kept { IfOk result (λ found. (h t : Value) → KeepsParts found.items (context_of context.now) at d (Cons h t)) }
    ensures few { OnOk result (IsTooLarge (context_of context.now) (in_place at type_parts (context_of context.now)) d → ⊥) }
    ensures many { IsErrOf result MapFault.TooMany →
        IsTooLarge (context_of context.now) (in_place at type_parts (context_of context.now)) d }
{
    opening(alloc, context, at, d)
}

/// The map from a context to the one in which element, left and right stand for the tree at `at`.
///
/// `TooMany` where one of the two contexts has more than 2000 indices of degree at most `d`.
pub fn shift_tree(alloc: Global, context: &[Ty], at: usize, d: u8) -> Result<Vec<Entry>, MapFault>
    requires tree { (A : Type') × (slice_get (context_of context.now) at ≡ Some (TreeOf A)) }
    requires low { d ≤ 4 }
    ensures map { IfOk result (λ found. found.items ≡ opening (context_of context.now) at d) }
    ensures kept { IfOk result (λ found. (a l r : Value) → KeepsParts found.items (context_of context.now) at d (Node a l r)) }
    ensures few { OnOk result (IsTooLarge (context_of context.now) (in_place at type_parts (context_of context.now)) d → ⊥) }
    ensures many { IsErrOf result MapFault.TooMany →
        IsTooLarge (context_of context.now) (in_place at type_parts (context_of context.now)) d }
{
    opening(alloc, context, at, d)
}

/// The map from a context to the one in which what the option at `at` holds stands for it.
///
/// `TooMany` where one of the two contexts has more than 2000 indices of degree at most `d`.
pub fn shift_option(alloc: Global, context: &[Ty], at: usize, d: u8) -> Result<Vec<Entry>, MapFault>
    requires option { (A : Type') × (slice_get (context_of context.now) at ≡ Some (OptionOf A)) }
    requires low { d ≤ 4 }
    ensures map { IfOk result (λ found. found.items ≡ opening (context_of context.now) at d) }
    ensures kept { IfOk result (λ found. (v : Value) → KeepsParts found.items (context_of context.now) at d (Just v)) }
    ensures few { OnOk result (IsTooLarge (context_of context.now) (in_place at type_parts (context_of context.now)) d → ⊥) }
    ensures many { IsErrOf result MapFault.TooMany →
        IsTooLarge (context_of context.now) (in_place at type_parts (context_of context.now)) d }
{
    opening(alloc, context, at, d)
}

/// The map from a context to the one without the list, tree or option at `at`, which is empty.
///
/// `TooMany` where one of the two contexts has more than 2000 indices of degree at most `d`.
pub fn empty_part(alloc: Global, context: &[Ty], at: usize, d: u8) -> Result<Vec<Entry>, MapFault>
    requires can_be_empty { (A : Type') × ((slice_get (context_of context.now) at ≡ Some (ListOf A))
        ⊎ ((slice_get (context_of context.now) at ≡ Some (TreeOf A)) ⊎ (slice_get (context_of context.now) at ≡ Some (OptionOf A)))) }
    requires low { d ≤ 4 }
    ensures map { IfOk result (λ found. found.items ≡ leaving (context_of context.now) at d) }
    ensures kept { IfOk result (λ found. KeepsRest found.items (context_of context.now) at d Empty) }
    ensures few { OnOk result (IsTooLarge (context_of context.now) (in_place at none (context_of context.now)) d → ⊥) }
    ensures many { IsErrOf result MapFault.TooMany → IsTooLarge (context_of context.now) (in_place at none (context_of context.now)) d }
{
    leaving(alloc, context, at, d)
}

/// The map from a context to the one in which both parts stand for the pair at `at`.
///
/// `TooMany` where one of the two contexts has more than 2000 indices of degree at most `d`.
pub fn split_pair(alloc: Global, context: &[Ty], at: usize, d: u8) -> Result<Vec<Entry>, MapFault>
    requires pair { (A : Type') × (B : Type') × (slice_get (context_of context.now) at ≡ Some (PairOf A B)) }
    requires low { d ≤ 4 }
    ensures map { IfOk result (λ found. found.items ≡ opening (context_of context.now) at d) }
    ensures kept { IfOk result (λ found. (v w : Value) → KeepsParts found.items (context_of context.now) at d (Both v w)) }
    ensures few { OnOk result (IsTooLarge (context_of context.now) (in_place at type_parts (context_of context.now)) d → ⊥) }
    ensures many { IsErrOf result MapFault.TooMany →
        IsTooLarge (context_of context.now) (in_place at type_parts (context_of context.now)) d }
{
    opening(alloc, context, at, d)
}

/// The map from a context to the one without the variable at `at`: the numbers of its index of degree
/// 0 stay.
///
/// `TooMany` where one of the two contexts has more than 2000 indices of degree at most `d`.
pub fn drop_var(alloc: Global, context: &[Ty], at: usize, d: u8) -> Result<Vec<Entry>, MapFault>
    requires there { at < length context.now }
    requires low { d ≤ 4 }
    ensures map { IfOk result (λ found. found.items ≡ leaving (context_of context.now) at d) }
    ensures zero { IfOk result (λ found. (v : Value) → KeepsZero found.items (context_of context.now) at d v) }
    ensures lowered { IfOk result (λ found. (v : Value) → LowersRest found.items (context_of context.now) at d v) }
    ensures few { OnOk result (IsTooLarge (context_of context.now) (in_place at none (context_of context.now)) d → ⊥) }
    ensures many { IsErrOf result MapFault.TooMany → IsTooLarge (context_of context.now) (in_place at none (context_of context.now)) d }
{
    leaving(alloc, context, at, d)
}

/// The map from the context with the variable at `at` twice, the second time behind the first, to the
/// context itself.
///
/// `TooMany` where one of the two contexts has more than 2000 indices of degree at most `d`.
pub fn share_map(alloc: Global, context: &[Ty], at: usize, d: u8) -> Result<Vec<Entry>, MapFault>
    requires there { at < length context.now }
    requires low { d ≤ 4 }
    ensures map { IfOk result (λ found. found.items ≡ sharing (context_of context.now) at d) }
    ensures kept { IfOk result (λ found. (v : Value) → KeepsShared found.items (context_of context.now) at d v) }
    ensures few { OnOk result (IsTooLarge (in_place at twice (context_of context.now)) (context_of context.now) d → ⊥) }
    ensures many { IsErrOf result MapFault.TooMany → IsTooLarge (in_place at twice (context_of context.now)) (context_of context.now) d }
{
    let local = Local::sharing(alloc, &context[at], d)?;
    map_at(alloc, context, at, &local, d)
}

// From the context to the one with the parts of the variable in its place.
fn opening(alloc: Global, context: &[Ty], at: usize, d: u8) -> Result<Vec<Entry>, MapFault>
    requires there { at < length context.now }
    requires low { d ≤ 4 }
    ensures map { IfOk result (λ found. found.items ≡ opening (context_of context.now) at d) }
    ensures kept { IfOk result (λ found. (v : Value) → value_parts v ≢ [] → KeepsParts found.items (context_of context.now) at d v) }
    ensures few { OnOk result (IsTooLarge (context_of context.now) (in_place at type_parts (context_of context.now)) d → ⊥) }
    ensures many { IsErrOf result MapFault.TooMany →
        IsTooLarge (context_of context.now) (in_place at type_parts (context_of context.now)) d }
{
    let local = Local::opening(alloc, &context[at], d)?;
    map_at(alloc, context, at, &local, d)
}

// From the context to the one without the variable.
fn leaving(alloc: Global, context: &[Ty], at: usize, d: u8) -> Result<Vec<Entry>, MapFault>
    requires there { at < length context.now }
    requires low { d ≤ 4 }
    ensures map { IfOk result (λ found. found.items ≡ leaving (context_of context.now) at d) }
    ensures kept { IfOk result (λ found. KeepsRest found.items (context_of context.now) at d Empty) }
    ensures zero { IfOk result (λ found. (v : Value) → KeepsZero found.items (context_of context.now) at d v) }
    ensures lowered { IfOk result (λ found. (v : Value) → LowersRest found.items (context_of context.now) at d v) }
    ensures few { OnOk result (IsTooLarge (context_of context.now) (in_place at none (context_of context.now)) d → ⊥) }
    ensures many { IsErrOf result MapFault.TooMany → IsTooLarge (context_of context.now) (in_place at none (context_of context.now)) d }
{
    let local = Local::leaving(alloc, &context[at], d)?;
    map_at(alloc, context, at, &local, d)
}

// The map by which the variable is carried so.
fn map_at(
    alloc: Global,
    context: &[Ty],
    at: usize,
    local: &Local,
    d: u8,
) -> Result<Vec<Entry>, MapFault>
    requires there { at < length context.now }
    ensures map { IfOk result (λ found. (c : Carry) (Fs Ts : List Type') → IsLocal c Fs Ts d local.now →
        found.items ≡ entries (behind at c) (in_place at (λ _. Fs) (context_of context.now))
        (in_place at (λ _. Ts) (context_of context.now)) d) }
    ensures few { OnOk result ((c : Carry) (Fs Ts : List Type') → IsLocal c Fs Ts d local.now →
        IsTooLarge (in_place at (λ _. Fs) (context_of context.now)) (in_place at (λ _. Ts) (context_of context.now)) d → ⊥) }
    ensures many { IsErrOf result MapFault.TooMany → (c : Carry) (Fs Ts : List Type') → IsLocal c Fs Ts d local.now →
        IsTooLarge (in_place at (λ _. Fs) (context_of context.now)) (in_place at (λ _. Ts) (context_of context.now)) d }
{
    let before = degrees(alloc, &context[..at], d, usize::from(MOST))?;
    let after = degrees(alloc, &context[at + 1..], d, usize::from(MOST))?;
    local.map(alloc, &before, &after)
}
