// Rows become a system.
ghost use Rattle.std.specs.Prelude.{◌≡◌, ◌≤◌, ◌++◌, ◌∷◌, [], map, length, vec_len, Some, IfOk, IfErr, IfSome, IfNone, OnOk};
ghost use Rattle.raml_num.specs.Sums.{NoneNegative};
ghost use Rattle.constraint_gen.specs.Finished.{AreBelow, FirstNone, AllThere, RowFault, Finished, present};

use crate::fault::{GenFault, What};
use linear_rows::{Row, System};
use std::alloc::{AllocError, Global};

// The place of the first row that is not there.
fn first_none(rows: &[Option<Row>]) -> Option<u32>
    requires few { length rows.now ≤ 2000 }
    ensures first { IfSome result (FirstNone rows.now) }
    ensures none { IfNone result (AllThere rows.now) }
{
    for place in 0..rows.len() {
        if rows[place].is_none() {
            return Some(place as u32);
        }
    }
    None
}

// The rows that are there.
fn present(alloc: Global, rows: Vec<Option<Row>>) -> Result<Vec<Row>, AllocError>
    ensures { IfOk result (λ all. all.items ≡ present rows.items) }
{
    let mut all = Vec::with_capacity(alloc, rows.len())?;
    for row in rows {
        append(&mut all, row)?;
    }
    Ok(all)
}

// One row more, where it is there.
fn append(all: &mut Vec<Row>, row: Option<Row>) -> Result<(), AllocError>
    ensures { OnOk result (all.new.items ≡ all.old.items ++ present (row ∷ [])) }
{
    if let Some(row) = row {
        all.push(row)?;
    }
    Ok(())
}

/// The system of these rows: `TooLarge` where they are more than 2000, and else `Leaves` where one is not
/// there.
pub fn finish(
    alloc: Global,
    unknowns: u32,
    rows: Vec<Option<Row>>,
    weights: Vec<i128>,
) -> Result<System, GenFault>
    requires below { AreBelow unknowns rows.items }
    requires one_each { vec_len weights ≡ unknowns }
    requires natural { NoneNegative weights.items }
    ensures made { IfOk result (λ made. Finished rows.items made.rows) }
    ensures unknowns { IfOk result (λ made. made.unknowns ≡ unknowns) }
    ensures weights { IfOk result (λ made. made.weights ≡ weights.items) }
    ensures fault { IfErr result (RowFault rows.items) }
{
    if rows.len() > 2000 {
        return Err(GenFault::TooLarge(What::Rows));
    }
    match first_none(&rows) {
        Some(row) => Err(GenFault::Leaves { row }),
        None => Ok(whole(alloc, unknowns, rows, weights)?),
    }
}

// The same, where all rows are there.
fn whole(
    alloc: Global,
    unknowns: u32,
    rows: Vec<Option<Row>>,
    weights: Vec<i128>,
) -> Result<System, AllocError>
    requires there { AllThere rows.items }
    requires below { AreBelow unknowns rows.items }
    requires one_each { vec_len weights ≡ unknowns }
    requires natural { NoneNegative weights.items }
    ensures made { IfOk result (λ made. map Some made.rows ≡ rows.items) }
    ensures unknowns { IfOk result (λ made. made.unknowns ≡ unknowns) }
    ensures weights { IfOk result (λ made. made.weights ≡ weights.items) }
{
    let all = present(alloc, rows)?;
    Ok(System::new(unknowns, all, weights))
}
