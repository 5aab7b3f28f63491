//! The inverse of a small matrix, by elimination.

use fx_num::Memory;
use fx_template_reach::size_of;
use std::alloc::Global;
use std::mem::replace;

/// A pivot below this is none.
const LEAST_PIVOT: f64 = 1.0e-13;

/// An entry of a row, 0 where it has none.
pub fn entry_of(row: &[f64], i: usize) -> f64 {
    match row.get(i) {
        Some(x) => *x,
        None => 0.0,
    }
}

/// An entry of a matrix.
fn entry(rows: &[Vec<f64>], row: usize, column: usize) -> f64 {
    match rows.get(row) {
        Some(row) => entry_of(row, column),
        None => 0.0,
    }
}

/// The row from `from` on whose entry in a column is the greatest.
fn pivot(rows: &[Vec<f64>], column: usize, from: usize) -> usize {
    let mut best = from;
    for row in from..rows.len() {
        if size_of(entry(rows, row, column)) > size_of(entry(rows, best, column)) {
            best = row;
        }
    }
    best
}

/// Takes a row out of a matrix, and puts another in its place.
fn exchange_row(rows: &mut Vec<Vec<f64>>, i: usize, row: Vec<f64>) -> Vec<f64> {
    match rows.get_mut(i) {
        Some(slot) => replace(slot, row),
        None => row,
    }
}

/// A row divided by a number.
fn divide(row: &mut Vec<f64>, divisor: f64) {
    for x in row.iter_mut() {
        *x = *x / divisor;
    }
}

/// Takes so many times a row from another.
pub fn take_row(own: &mut [f64], other: &[f64], factor: f64) {
    for (x, y) in own.iter_mut().zip(other) {
        *x = *x - factor * *y;
    }
}

/// Takes a row from all others, so that their entries in its column are 0.
fn take_from_others(rows: &mut Vec<Vec<f64>>, own: &[f64], column: usize) {
    for i in 0..rows.len() {
        let factor = entry_of(&rows[i], column);
        if i != column && factor != 0.0 {
            take_row(&mut rows[i], own, factor);
        }
    }
}

/// Puts the row that stood in the place of a column's pivot in the place that this left, without that column.
fn put_other(rows: &mut Vec<Vec<f64>>, place: usize, other: Vec<f64>, column: usize) {
    let factor = entry_of(&other, column);
    let mut other = other;
    if let Some(own) = rows.get(column) {
        take_row(&mut other, own, factor);
    }
    let _empty = exchange_row(rows, place, other);
}

/// Brings a column to a column of the unit matrix, by the row of its pivot.
fn clear_by(alloc: Global, rows: &mut Vec<Vec<f64>>, column: usize, best: usize, divisor: f64) {
    let mut own = exchange_row(rows, best, Vec::new(alloc));
    divide(&mut own, divisor);
    take_from_others(rows, &own, column);
    let other = exchange_row(rows, column, own);
    if best != column {
        put_other(rows, best, other, column);
    }
}

/// Brings a column to a column of the unit matrix. Whether its pivot was great enough.
fn clear_column(alloc: Global, rows: &mut Vec<Vec<f64>>, column: usize) -> bool {
    let best = pivot(rows, column, column);
    let divisor = entry(rows, best, column);
    let is_great = size_of(divisor) > LEAST_PIVOT;
    if is_great {
        clear_by(alloc, rows, column, best, divisor);
    }
    is_great
}

/// Brings all columns there, likewise.
fn clear_columns(alloc: Global, rows: &mut Vec<Vec<f64>>) -> bool {
    let mut is_clear = true;
    for column in 0..rows.len() {
        is_clear = is_clear && clear_column(alloc, rows, column);
    }
    is_clear
}

/// The last columns of all rows.
fn right_part(alloc: Global, rows: &[Vec<f64>]) -> Result<Vec<Vec<f64>>, Memory> {
    let mut right = Vec::new(alloc);
    for row in rows {
        let own = row.as_slice().get(rows.len()..).unwrap_or(&[]);
        right.push(Vec::from_slice(alloc, own)?)?;
    }
    Ok(right)
}

/// The inverse of a matrix, beside whose rows those of the unit matrix stand. None where there is next to none.
pub fn inverse(alloc: Global, rows: Vec<Vec<f64>>) -> Result<Option<Vec<Vec<f64>>>, Memory> {
    let mut rows = rows;
    if clear_columns(alloc, &mut rows) {
        let right = right_part(alloc, &rows)?;
        Ok(Some(right))
    } else {
        Ok(None)
    }
}
