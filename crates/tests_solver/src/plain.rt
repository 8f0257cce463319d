//! A plain solver: the tableau over whole numbers as it is defined, with every number of it.
//!
//! After a pivot the numbers are divided by what all of them have in common with the number that they are
//! over, which changes no fraction.
use frac128::Frac;
use linear_rows::System;
use raml_num::gcd;
use simplex::Answer;
use std::alloc::{AllocError, Global};
use std::test::Fail;

/// The rows of the unknowns and then the gains, all over one number.
#[derive(Drop)]
struct Plain {
    rows: Vec<Vec<i128>>,
    over: i128,
    basis: Vec<usize>,
    pivots: Vec<(u32, u32)>,
    gains: usize,
    slack: usize,
    right: usize,
}

/// What comes of a step.
#[derive(Clone, Copy)]
enum Step {
    Pivot,
    Best,
    Rises(usize),
    Leaves(usize, usize),
}

/// `n / d`, or None where no fraction of the range has this value.
fn fraction(n: i128, d: i128) -> Option<Frac> {
    let d = Frac::whole(d)?;
    if d.num() == 0 {
        None
    } else {
        Frac::whole(n)?.div(&d)
    }
}

/// The negative of `n / d`.
fn negative(n: i128, d: i128) -> Option<Frac> {
    Some(fraction(n, d)?.neg())
}

/// The opening number in row `i` and column `c`.
fn opening_entry(system: &System, i: usize, c: usize) -> i128 {
    let unknowns = system.unknowns() as usize;
    if let Some(row) = system.rows().get(c) {
        return match u32::try_from(i) {
            Ok(unknown) if i < unknowns => row.coefficient(unknown),
            _ => row.right(),
        };
    }
    let column = c.saturating_sub(system.rows().len());
    if i < unknowns && column == i {
        1
    } else if i < unknowns && column == unknowns {
        *system.weights().get(i).unwrap_or(&0)
    } else {
        0
    }
}

/// The opening numbers of row `i`.
fn opening_row(alloc: Global, system: &System, i: usize, right: usize) -> Result<Vec<i128>, Fail> {
    let mut row = Vec::new(alloc);
    for c in 0..=right {
        row.push(opening_entry(system, i, c))?;
    }
    Ok(row)
}

fn opening(alloc: Global, system: &System) -> Result<Plain, Fail> {
    let gains = system.unknowns() as usize;
    let slack = system.rows().len();
    let right = slack.checked_add(gains).ok_or("too many columns")?;
    let mut rows = Vec::new(alloc);
    for i in 0..=gains {
        rows.push(opening_row(alloc, system, i, right)?)?;
    }
    let mut basis = Vec::new(alloc);
    for column in slack..right {
        basis.push(column)?;
    }
    Ok(Plain {
        rows,
        over: 1,
        basis,
        pivots: Vec::new(alloc),
        gains,
        slack,
        right,
    })
}

/// What a number and those of a row have in common.
fn common_with(number: u128, row: &[i128]) -> u128 {
    let mut common = number;
    for n in row {
        common = gcd(common, n.unsigned_abs());
    }
    common
}

/// The numbers of a row over `by`.
fn divided(alloc: Global, row: &[i128], by: i128) -> Result<Vec<i128>, Fail> {
    let mut all = Vec::new(alloc);
    for n in row {
        all.push(n.checked_div(by).ok_or("no quotient")?)?;
    }
    Ok(all)
}

impl Plain {
    /// The number in row `i` and column `c`.
    fn entry(&self, i: usize, c: usize) -> i128 {
        match self.rows.get(i) {
            Some(row) => *row.get(c).unwrap_or(&0),
            None => 0,
        }
    }

    /// Where -2^127 stands, the one number that is no fraction.
    fn least_number(&self) -> Option<(usize, usize)> {
        for i in 0..=self.gains {
            for c in 0..=self.right {
                if self.entry(i, c) == i128::MIN {
                    return Some((i, c));
                }
            }
        }
        None
    }

    /// The least column with gain.
    fn entering(&self) -> Option<usize> {
        for c in 0..self.right {
            if self.entry(self.gains, c) > 0 {
                return Some(c);
            }
        }
        None
    }

    /// The rows with a positive number in column `s`.
    fn bounding(&self, alloc: Global, s: usize) -> Result<Vec<usize>, AllocError> {
        let mut all = Vec::new(alloc);
        for i in 0..self.gains {
            if self.entry(i, s) > 0 {
                all.push(i)?;
            }
        }
        Ok(all)
    }

    /// Of these rows, the first whose number in column `c` has no quotient by that in column `s`.
    fn without_ratio(&self, s: usize, c: usize, among: &[usize]) -> Option<usize> {
        for i in among {
            if fraction(self.entry(*i, c), self.entry(*i, s)).is_none() {
                return Some(*i);
            }
        }
        None
    }

    /// Whether the ratio of row `i` in column `c` is at most that of each of these rows.
    fn is_least(&self, s: usize, c: usize, i: usize, among: &[usize]) -> Option<bool> {
        for m in among {
            let left = self.entry(i, c).checked_mul(self.entry(*m, s))?;
            let right = self.entry(*m, c).checked_mul(self.entry(i, s))?;
            if left > right {
                return Some(false);
            }
        }
        Some(true)
    }

    /// Of these rows, those with the least ratio in column `c`.
    fn ties(&self, alloc: Global, s: usize, c: usize, among: &[usize]) -> Result<Vec<usize>, Fail> {
        let mut tied = Vec::new(alloc);
        for i in among {
            if self.is_least(s, c, *i, among).ok_or("too large")? {
                tied.push(*i)?;
            }
        }
        Ok(tied)
    }

    /// The rows that are tied for the least in all columns that are compared, or where a ratio leaves.
    fn leaving(
        &self,
        alloc: Global,
        s: usize,
        all: Vec<usize>,
    ) -> Result<Result<usize, (usize, usize)>, Fail> {
        if let Some(i) = self.without_ratio(s, self.right, &all) {
            return Ok(Err((i, self.right)));
        }
        let mut tied = self.ties(alloc, s, self.right, &all)?;
        for c in self.slack..self.right {
            if tied.len() > 1 {
                if let Some(i) = self.without_ratio(s, c, &tied) {
                    return Ok(Err((i, c)));
                }
                tied = self.ties(alloc, s, c, &tied)?;
            }
        }
        Ok(Ok(*tied.get(0).ok_or("no row")?))
    }

    /// The number in row `i` and column `c` after the pivot, or None where it leaves the range.
    fn changed(&self, l: usize, s: usize, i: usize, c: usize) -> Option<Frac> {
        let quotient = fraction(self.entry(l, c), self.entry(l, s))?;
        if i == l {
            Some(quotient)
        } else {
            let product = fraction(self.entry(i, s), self.over)?.mul(&quotient)?;
            fraction(self.entry(i, c), self.over)?.sub(&product)
        }
    }

    /// The first column in which a number of row `i` leaves the range.
    fn refused_in(&self, l: usize, s: usize, i: usize) -> Option<usize> {
        for c in 0..=self.right {
            if self.changed(l, s, i, c).is_none() {
                return Some(c);
            }
        }
        None
    }

    /// Where the pivot leaves the range: in the leaving row, or in the first other row.
    fn refused(&self, l: usize, s: usize) -> Option<(usize, usize)> {
        if let Some(c) = self.refused_in(l, s, l) {
            return Some((l, c));
        }
        for i in 0..=self.gains {
            if let Some(c) = self.refused_in(l, s, i) {
                return Some((i, c));
            }
        }
        None
    }

    /// The number in row `i` and column `c` after the pivot, as it is defined.
    fn pivoted(&self, l: usize, s: usize, i: usize, c: usize) -> Option<i128> {
        if i == l {
            self.entry(l, c).checked_mul(self.over)
        } else {
            let left = self.entry(i, c).checked_mul(self.entry(l, s))?;
            let right = self.entry(i, s).checked_mul(self.entry(l, c))?;
            left.checked_sub(right)
        }
    }

    fn pivoted_row(&self, alloc: Global, l: usize, s: usize, i: usize) -> Result<Vec<i128>, Fail> {
        let mut row = Vec::new(alloc);
        for c in 0..=self.right {
            row.push(self.pivoted(l, s, i, c).ok_or("too large")?)?;
        }
        Ok(row)
    }

    fn pivoted_rows(&self, alloc: Global, l: usize, s: usize) -> Result<Vec<Vec<i128>>, Fail> {
        let mut rows = Vec::new(alloc);
        for i in 0..=self.gains {
            rows.push(self.pivoted_row(alloc, l, s, i)?)?;
        }
        Ok(rows)
    }

    /// Notes that column `s` enters in row `l`.
    fn enter(&mut self, l: usize, s: usize) -> Result<(), Fail> {
        *self.basis.get_mut(l).ok_or("no such row")? = s;
        self.pivots.push((u32::try_from(l)?, u32::try_from(s)?))?;
        Ok(())
    }

    fn pivot(&mut self, alloc: Global, l: usize, s: usize) -> Result<(), Fail> {
        let over = self.over.checked_mul(self.entry(l, s)).ok_or("too large")?;
        self.rows = self.pivoted_rows(alloc, l, s)?;
        self.over = over;
        self.enter(l, s)?;
        self.reduce(alloc)
    }

    /// What all numbers have in common.
    fn common(&self) -> u128 {
        let mut common = self.over.unsigned_abs();
        for row in &self.rows {
            common = common_with(common, row);
        }
        common
    }

    fn divided_rows(&self, alloc: Global, by: i128) -> Result<Vec<Vec<i128>>, Fail> {
        let mut rows = Vec::new(alloc);
        for row in &self.rows {
            rows.push(divided(alloc, row, by)?)?;
        }
        Ok(rows)
    }

    /// Divides all numbers by what they have in common.
    fn reduce(&mut self, alloc: Global) -> Result<(), Fail> {
        let by = i128::try_from(self.common())?;
        self.over = self.over.checked_div(by).ok_or("no quotient")?;
        self.rows = self.divided_rows(alloc, by)?;
        Ok(())
    }

    fn step(&mut self, alloc: Global) -> Result<Step, Fail> {
        let Some(s) = self.entering() else {
            return Ok(Step::Best);
        };
        let all = self.bounding(alloc, s)?;
        if all.is_empty() {
            return Ok(Step::Rises(s));
        }
        match self.leaving(alloc, s, all)? {
            Err((i, c)) => Ok(Step::Leaves(i, c)),
            Ok(l) => match self.refused(l, s) {
                Some((i, c)) => Ok(Step::Leaves(i, c)),
                None => {
                    self.pivot(alloc, l, s)?;
                    Ok(Step::Pivot)
                }
            },
        }
    }

    fn solution(&self, alloc: Global) -> Result<Vec<Frac>, Fail> {
        let mut x = Vec::new(alloc);
        for c in self.slack..self.right {
            x.push(negative(self.entry(self.gains, c), self.over).ok_or("too large")?)?;
        }
        Ok(x)
    }

    /// The row whose basis column this is.
    fn row_of(&self, column: usize) -> Option<usize> {
        for l in 0..self.gains {
            if self.basis.get(l) == Some(&column) {
                return Some(l);
            }
        }
        None
    }

    fn dual(&self, alloc: Global) -> Result<Vec<Frac>, Fail> {
        let mut y = Vec::new(alloc);
        for j in 0..self.slack {
            let number = match self.row_of(j) {
                Some(l) => fraction(self.entry(l, self.right), self.over).ok_or("too large")?,
                None => Frac::zero(),
            };
            y.push(number)?;
        }
        Ok(y)
    }

    fn ray(&self, alloc: Global, s: usize) -> Result<Vec<Frac>, Fail> {
        let mut y = Vec::new(alloc);
        for j in 0..self.slack {
            let number = match self.row_of(j) {
                _ if j == s => Frac::one(),
                Some(l) => negative(self.entry(l, s), self.over).ok_or("too large")?,
                None => Frac::zero(),
            };
            y.push(number)?;
        }
        Ok(y)
    }

    /// The answer at the end of a course.
    fn answer(self, alloc: Global, end: Step) -> Result<Answer, Fail> {
        match end {
            Step::Pivot => Err(Fail::new("too many pivots")),
            Step::Best => Ok(Answer::Best {
                x: self.solution(alloc)?,
                dual: self.dual(alloc)?,
                pivots: self.pivots,
            }),
            Step::Rises(s) => Ok(Answer::NoSolution {
                farkas: self.ray(alloc, s)?,
                pivots: self.pivots,
            }),
            Step::Leaves(i, c) => Ok(Answer::Leaves {
                pivots: self.pivots,
                row: u32::try_from(i)?,
                col: u32::try_from(c)?,
            }),
        }
    }
}

/// What solving the system answers, where the least column with gain enters.
pub(super) fn solve(alloc: Global, system: &System) -> Result<Answer, Fail> {
    let mut plain = opening(alloc, system)?;
    if let Some((i, c)) = plain.least_number() {
        return plain.answer(alloc, Step::Leaves(i, c));
    }
    let mut step = Step::Pivot;
    for _ in 0..1000 {
        if matches!(step, Step::Pivot) {
            step = plain.step(alloc)?;
        }
    }
    plain.answer(alloc, step)
}
