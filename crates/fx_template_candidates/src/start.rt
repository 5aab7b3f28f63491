//! Where bounds begin: at the fixed point of their left sides, which two linear systems give in floating point.
//!
//! Middles and half widths go apart. Passes that follow the left sides come there too, but a plane of poles that fade
//! slowly needs thousands. The last template goes first, so that chains, each template of which takes the next, cost
//! next to nothing.

use crate::left::Left;
use fx_num::Memory;
use fx_simplex::{entry_of, take_row};
use std::alloc::Global;
use std::mem::replace;

/// Each bound is wider than its left side by such a part, so that the first pass proves it, whatever it rounds.
const SLACK: f64 = 1.0 / 67108864.0;

/// A pivot below this is none.
const LEAST_PIVOT: f64 = 1.0e-9;

/// Equations, one for each template: what it leaves of itself and takes of the others, and what drives it.
#[derive(Drop)]
struct Equations {
    rows: Vec<Vec<f64>>,
    drives: Vec<f64>,
}

/// Takes a row over its pivot, and only what stands before that.
fn divide(row: &mut Vec<f64>, i: usize, pivot: f64) {
    row.truncate(i);
    for k in 0..row.len() {
        row[k] = row[k] / pivot;
    }
}

/// Puts a number in a list.
fn put(numbers: &mut Vec<f64>, i: usize, x: f64) {
    if let Some(slot) = numbers.get_mut(i) {
        *slot = x;
    }
}

/// What template `i` leaves of itself and takes of the others.
fn row_of(alloc: Global, lefts: &[Left], i: usize, is_signed: bool) -> Result<Vec<f64>, Memory> {
    let mut row = vec![in alloc; 0.0_f64; lefts.len()]?;
    if let Some(left) = lefts.get(i) {
        left.put_weights(&mut row, is_signed);
    }
    let own = entry_of(&row, i) + 1.0;
    put(&mut row, i, own);
    Ok(row)
}

/// The rows of all templates.
fn rows_of(alloc: Global, lefts: &[Left], is_signed: bool) -> Result<Vec<Vec<f64>>, Memory> {
    let mut rows = Vec::new(alloc);
    for i in 0..lefts.len() {
        rows.push(row_of(alloc, lefts, i, is_signed)?)?;
    }
    Ok(rows)
}

/// What drives all templates, with slack where that isn't signed.
fn drives_of(
    alloc: Global,
    lefts: &[Left],
    widths: &[f64],
    is_signed: bool,
) -> Result<Vec<f64>, Memory> {
    let mut drives = Vec::new(alloc);
    for i in 0..lefts.len() {
        let slack = if is_signed {
            0.0
        } else {
            entry_of(widths, i) * SLACK
        };
        drives.push(lefts[i].driven(is_signed) + slack)?;
    }
    Ok(drives)
}

impl Equations {
    /// Those of middles, in which what is taken has its sign, or of half widths, with these widths for slack.
    fn of(
        alloc: Global,
        lefts: &[Left],
        widths: &[f64],
        is_signed: bool,
    ) -> Result<Equations, Memory> {
        let rows = rows_of(alloc, lefts, is_signed)?;
        let drives = drives_of(alloc, lefts, widths, is_signed)?;
        Ok(Equations { rows, drives })
    }

    /// Takes row `i` out, and puts another in its place.
    fn exchange_row(&mut self, i: usize, row: Vec<f64>) -> Vec<f64> {
        match self.rows.get_mut(i) {
            Some(slot) => replace(slot, row),
            None => row,
        }
    }

    /// Takes template `i`, of which this row and drive are left, out of equation `k`.
    fn take_from(&mut self, k: usize, row: &[f64], i: usize, drive: f64) {
        if let Some(other) = self.rows.get_mut(k) {
            let factor = entry_of(other, i);
            if factor != 0.0 {
                take_row(other, row, factor);
                let own = entry_of(&self.drives, k) - factor * drive;
                put(&mut self.drives, k, own);
            }
        }
    }

    /// Takes template `i` out of the equations of those before it, by its row, which is divided by its pivot.
    fn eliminate_by(&mut self, row: &mut Vec<f64>, i: usize, pivot: f64) {
        divide(row, i, pivot);
        let drive = entry_of(&self.drives, i) / pivot;
        for k in 0..i {
            self.take_from(k, row, i, drive);
        }
        put(&mut self.drives, i, drive);
    }

    /// Takes a template out of the equations of those before it. False where nothing is left of it.
    fn eliminate(&mut self, alloc: Global, i: usize) -> bool {
        let mut row = self.exchange_row(i, Vec::new(alloc));
        let pivot = entry_of(&row, i);
        let is_left = pivot > LEAST_PIVOT;
        if is_left {
            self.eliminate_by(&mut row, i, pivot);
        }
        let _empty = self.exchange_row(i, row);
        is_left
    }

    /// Takes all templates out of those before them, the last first, likewise.
    fn eliminate_all(&mut self, alloc: Global) -> bool {
        let mut are_left = true;
        for i in (0..self.rows.len()).rev() {
            are_left = are_left && self.eliminate(alloc, i);
        }
        are_left
    }

    /// What template `i` comes to by those before it.
    fn value_at(&self, i: usize, before: &[f64]) -> f64 {
        let mut x = entry_of(&self.drives, i);
        if let Some(row) = self.rows.get(i) {
            for k in 0..before.len().min(row.len()) {
                x = x - row[k] * before[k];
            }
        }
        x
    }

    /// The solution, once each template is taken out of those before it.
    fn solution(&self, alloc: Global) -> Result<Vec<f64>, Memory> {
        let mut solution = Vec::new(alloc);
        for i in 0..self.rows.len() {
            let x = self.value_at(i, &solution);
            solution.push(x)?;
        }
        Ok(solution)
    }

    /// The solution, if there is one.
    fn solve(self, alloc: Global) -> Result<Option<Vec<f64>>, Memory> {
        let mut equations = self;
        if equations.eliminate_all(alloc) {
            let solution = equations.solution(alloc)?;
            Ok(Some(solution))
        } else {
            Ok(None)
        }
    }
}

/// The solution of the equations of middles or of half widths, if there is one.
fn solved(
    alloc: Global,
    lefts: &[Left],
    widths: &[f64],
    is_signed: bool,
) -> Result<Option<Vec<f64>>, Memory> {
    let equations = Equations::of(alloc, lefts, widths, is_signed)?;
    equations.solve(alloc)
}

/// Whether no number is below 0, and each is one.
fn are_sizes(numbers: &[f64]) -> bool {
    for x in numbers {
        if !(*x >= 0.0) {
            return false;
        }
    }
    true
}

/// Middles, if there are some, with these half widths.
fn with_middles(
    alloc: Global,
    lefts: &[Left],
    widths: &[f64],
    halves: Vec<f64>,
) -> Result<Option<(Vec<f64>, Vec<f64>)>, Memory> {
    match solved(alloc, lefts, widths, true)? {
        Some(middles) => Ok(Some((middles, halves))),
        None => Ok(None),
    }
}

/// The middles and half widths at which each template's bound is its left side and next to nothing more, if there are
/// some. The widths are about those of the bounds.
pub fn fixed_point(
    alloc: Global,
    lefts: &[Left],
    widths: &[f64],
) -> Result<Option<(Vec<f64>, Vec<f64>)>, Memory> {
    match solved(alloc, lefts, widths, false)? {
        Some(halves) => if are_sizes(&halves) {
            with_middles(alloc, lefts, widths, halves)
        } else {
            Ok(None)
        },
        None => Ok(None),
    }
}
