//! Systems of inequalities.

ghost use Rattle.std.specs.Prelude.{◌≡◌, ◌++◌, ◌∷◌, [], OnOk, OnErr, vec_len};
ghost use Rattle.raml_num.specs.Sums.{NoneNegative};
ghost use Rattle.linear_rows.specs.Systems.{LinearSystem, IsSystem, IsBelow, AllBelow};

use crate::row::Row;
use std::alloc::AllocError;
use std::marker::Model;

/// A number of unknowns, which are not negative, with a natural weight for each, and rows over them.
#[derive(Debug, Drop)]
pub struct System {
    unknowns: u32,
    rows: Vec<Row>,
    weights: Vec<i128>,
}

impl Model for System {
    ghost Value = { LinearSystem };

    ghost view = { λ s. record { unknowns = s.unknowns; rows = s.rows.items; weights = s.weights.items } };

    ghost invariant = { λ s. IsSystem (record { unknowns = s.unknowns; rows = s.rows.items; weights = s.weights.items }) };
}

impl System {
    /// The system of these rows. There is one weight per unknown.
    pub fn new(unknowns: u32, rows: Vec<Row>, weights: Vec<i128>) -> System
        requires below { AllBelow unknowns rows.items }
        requires one_each { vec_len weights ≡ unknowns }
        requires natural { NoneNegative weights.items }
        ensures unknowns { result.unknowns ≡ unknowns }
        ensures rows { result.rows ≡ rows.items }
        ensures weights { result.weights ≡ weights.items }
    {
        System {
            unknowns,
            rows,
            weights,
        }
    }

    /// Adds a row after the others. Where memory runs out, the row is dropped.
    pub fn add_row(&mut self, row: Row) -> Result<(), AllocError>
        requires { IsBelow self.old.unknowns row }
        ensures added { OnOk result (self.new.rows ≡ self.old.rows ++ row ∷ []) }
        ensures unknowns { self.new.unknowns ≡ self.old.unknowns }
        ensures weights { self.new.weights ≡ self.old.weights }
        ensures kept { OnErr result (self.new ≡ self.old) }
    {
        self.rows.push(row)?;
        Ok(())
    }

    /// How many unknowns there are.
    pub fn unknowns(&self) -> u32
        ensures { result ≡ self.now.unknowns }
    {
        self.unknowns
    }

    /// The rows, in order.
    pub fn rows(&self) -> &[Row]
        ensures all { result.now ≡ self.now.rows }
        ensures sound { IsSystem self.now }
    {
        &self.rows
    }

    /// The weights, one per unknown.
    pub fn weights(&self) -> &[i128]
        ensures all { result.now ≡ self.now.weights }
        ensures sound { IsSystem self.now }
    {
        &self.weights
    }
}
