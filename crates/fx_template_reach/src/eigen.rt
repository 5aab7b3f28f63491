//! Eigenvalues of a matrix, and the vector of each.
//!
//! The matrix is brought to Hessenberg form by elimination, and then by QR steps with shifts to a triangle. A vector
//! comes by inverse iteration. Whoever takes them tests what they are worth, so that a matrix for which the steps don't
//! settle has none.

use crate::complex::{Complex, Matrix};
use crate::float::greater_of;
use fx_num::Memory;
use std::alloc::Global;

/// How many steps each eigenvalue may take, about.
const STEPS: usize = 40;

/// What is less than this part of its neighbours is zero.
const NEXT_TO_NOTHING: f64 = 2.0e-16;

/// A turn of two rows: a cosine and a complex sine.
#[derive(Clone, Copy)]
struct Turn {
    cosine: f64,
    sine: Complex,
}

/// Takes the rows behind the pivot's to zero in a column, and keeps the eigenvalues by the same of columns.
fn eliminate(m: &mut Matrix, k: usize) {
    let column = k.saturating_sub(1);
    let pivot = m.at(k, column);
    if !(pivot.length() > 0.0) {
        return;
    }
    for row in k.saturating_add(1)..m.size {
        let factor = m.at(row, column).over(pivot);
        if factor.length() > 0.0 {
            m.take_row(row, k, factor, 0);
            m.add_column(k, row, factor);
        }
    }
}

/// Brings a matrix to Hessenberg form, with the same eigenvalues.
fn reduce(m: &mut Matrix) {
    for k in 1..m.size {
        let best = m.pivot(k.saturating_sub(1), k);
        if best != k {
            m.swap_rows(best, k);
            m.swap_columns(best, k);
        }
        eliminate(m, k);
    }
}

/// Where the block begins that ends before `end`: behind the last zero below the diagonal.
fn block_start(m: &Matrix, end: usize) -> usize {
    let mut start = 0;
    for k in 1..end {
        let before = k.saturating_sub(1);
        let around = m.at(k, k).length() + m.at(before, before).length();
        if m.at(k, before).length() <= NEXT_TO_NOTHING * around {
            start = k;
        }
    }
    start
}

/// The eigenvalue of the last two rows' block that is nearer to its last entry.
fn shift_of(m: &Matrix, end: usize) -> Complex {
    let k = end.saturating_sub(1);
    let j = end.saturating_sub(2);
    let half = m.at(j, j).minus(m.at(k, k)).scaled(0.5);
    let product = m.at(j, k).times(m.at(k, j));
    let root = half.times(half).plus(product).root();
    let plus = half.plus(root);
    let minus = half.minus(root);
    let divisor = if plus.length() > minus.length() {
        plus
    } else {
        minus
    };
    if divisor.length() > 0.0 {
        m.at(k, k).minus(product.over(divisor))
    } else {
        m.at(k, k)
    }
}

/// The turn that takes the entry below the diagonal to zero.
fn turn_at(m: &Matrix, k: usize) -> Turn {
    let a = m.at(k, k);
    let b = m.at(k.saturating_add(1), k);
    let size = (a.re * a.re + a.im * a.im + b.re * b.re + b.im * b.im).sqrt();
    let own = a.size();
    if !(own > 0.0) {
        return Turn {
            cosine: 0.0,
            sine: Complex::real(1.0),
        };
    }
    Turn {
        cosine: own / size,
        sine: a.scaled(1.0 / own).times(b.conjugate()).scaled(1.0 / size),
    }
}

/// Turns two rows, from a column to an end.
fn turn_rows(m: &mut Matrix, k: usize, end: usize, turn: Turn) {
    let below = k.saturating_add(1);
    for column in k..end {
        let a = m.at(k, column);
        let b = m.at(below, column);
        m.put(k, column, a.scaled(turn.cosine).plus(turn.sine.times(b)));
        let other = b.scaled(turn.cosine).minus(turn.sine.conjugate().times(a));
        m.put(below, column, other);
    }
}

/// Turns two columns back, from a row to an end.
fn turn_columns(m: &mut Matrix, k: usize, start: usize, end: usize, turn: Turn) {
    let behind = k.saturating_add(1);
    for row in start..k.saturating_add(2).min(end) {
        let a = m.at(row, k);
        let b = m.at(row, behind);
        let own = a.scaled(turn.cosine).plus(turn.sine.conjugate().times(b));
        m.put(row, k, own);
        m.put(row, behind, b.scaled(turn.cosine).minus(turn.sine.times(a)));
    }
}

/// Adds a number to the diagonal of a block.
fn add_to_diagonal(m: &mut Matrix, start: usize, end: usize, x: Complex) {
    for k in start..end {
        m.put(k, k, m.at(k, k).plus(x));
    }
}

/// The turns that make a block a triangle.
fn turns_of(alloc: Global, m: &mut Matrix, start: usize, end: usize) -> Result<Vec<Turn>, Memory> {
    let mut turns = Vec::new(alloc);
    for k in start..end.saturating_sub(1) {
        let turn = turn_at(m, k);
        turn_rows(m, k, end, turn);
        turns.push(turn)?;
    }
    Ok(turns)
}

/// A QR step of a block.
fn step(
    alloc: Global,
    m: &mut Matrix,
    start: usize,
    end: usize,
    shift: Complex,
) -> Result<(), Memory> {
    add_to_diagonal(m, start, end, shift.scaled(-1.0));
    let turns = turns_of(alloc, m, start, end)?;
    for i in 0..turns.len() {
        turn_columns(m, start.saturating_add(i), start, end, turns[i]);
    }
    add_to_diagonal(m, start, end, shift);
    Ok(())
}

/// The shift of a step, for which an eigenvalue has waited so long.
fn shift_after(m: &Matrix, end: usize, waited: usize) -> Complex {
    let last = end.saturating_sub(1);
    if waited & 7 == 0 {
        // what goes round in a circle is thrown out of it
        Complex::real(m.at(last, last).length() + m.at(last, last.saturating_sub(1)).length())
    } else {
        shift_of(m, end)
    }
}

/// Takes eigenvalues off a matrix in Hessenberg form, the last first. Whether the steps settle.
fn take_values(alloc: Global, m: &mut Matrix, values: &mut Vec<Complex>) -> Result<bool, Memory> {
    let mut end = m.size;
    let mut waited: usize = 0;
    for _step in 0..m.size.saturating_mul(STEPS) {
        let last = end.saturating_sub(1);
        let start = block_start(m, end);
        if start < last {
            waited = waited.saturating_add(1);
            let shift = shift_after(m, end, waited);
            step(alloc, m, start, end, shift)?;
        } else if end > 0 {
            values.push(m.at(last, last))?;
            end = last;
            waited = 0;
        }
    }
    Ok(end == 0)
}

/// The eigenvalues of a matrix; none where the steps don't settle.
pub fn eigenvalues(alloc: Global, matrix: &Matrix) -> Result<Vec<Complex>, Memory> {
    let mut m = matrix.copy(alloc)?;
    let mut values = Vec::new(alloc);
    reduce(&mut m);
    if !take_values(alloc, &mut m, &mut values)? {
        values.truncate(0);
    }
    Ok(values)
}

/// Solves the equations of a matrix for a vector, by elimination; a pivot that is next to nothing is a small one.
fn solve(m: &mut Matrix, vector: &mut Vec<Complex>, least: f64) {
    for k in 0..m.size {
        let best = m.pivot(k, k);
        if best != k {
            m.swap_rows(best, k);
            swap(vector, best, k);
        }
        if m.at(k, k).length() < least {
            m.put(k, k, Complex::real(least));
        }
        take_below(m, vector, k);
    }
    for k in (0..m.size).rev() {
        put_back(m, vector, k);
    }
}

/// Exchanges two entries.
fn swap(vector: &mut Vec<Complex>, a: usize, b: usize) {
    let x = entry(vector, a);
    let y = entry(vector, b);
    put(vector, a, y);
    put(vector, b, x);
}

/// An entry of a vector.
pub fn entry(vector: &[Complex], i: usize) -> Complex {
    match vector.get(i) {
        Some(x) => *x,
        None => Complex { re: 0.0, im: 0.0 },
    }
}

/// Puts an entry of a vector.
fn put(vector: &mut Vec<Complex>, i: usize, x: Complex) {
    if let Some(slot) = vector.get_mut(i) {
        *slot = x;
    }
}

/// Takes the pivot's row from those below.
fn take_below(m: &mut Matrix, vector: &mut Vec<Complex>, k: usize) {
    for row in k.saturating_add(1)..m.size {
        let factor = m.at(row, k).over(m.at(k, k));
        if factor.length() > 0.0 {
            m.take_row(row, k, factor, k);
            let x = entry(vector, row).minus(factor.times(entry(vector, k)));
            put(vector, row, x);
        }
    }
}

/// Solves row `k`, where those behind it are solved.
fn put_back(m: &Matrix, vector: &mut Vec<Complex>, k: usize) {
    let mut x = entry(vector, k);
    for column in k.saturating_add(1)..m.size {
        x = x.minus(m.at(k, column).times(entry(vector, column)));
    }
    put(vector, k, x.over(m.at(k, k)));
}

/// The greatest entry of a vector.
pub fn greatest_entry(vector: &[Complex]) -> f64 {
    let mut most = 0.0;
    for x in vector {
        most = greater_of(most, x.length());
    }
    most
}

/// Makes the greatest entry 1, about.
fn normalise(vector: &mut Vec<Complex>) {
    let most = greatest_entry(vector);
    if most > 0.0 {
        for x in vector.iter_mut() {
            *x = x.scaled(1.0 / most);
        }
    }
}

/// Takes a vector nearer to that which a matrix takes to so many times itself.
fn iterate(
    alloc: Global,
    matrix: &Matrix,
    value: Complex,
    vector: &mut Vec<Complex>,
) -> Result<(), Memory> {
    let mut m = matrix.copy(alloc)?;
    add_to_diagonal(&mut m, 0, matrix.size, value.scaled(-1.0));
    solve(&mut m, vector, 1.0e-30);
    normalise(vector);
    Ok(())
}

/// The vector that a matrix takes to so many times itself.
pub fn eigenvector(alloc: Global, matrix: &Matrix, value: Complex) -> Result<Vec<Complex>, Memory> {
    let mut vector = vec![in alloc; Complex { re: 1.0, im: 0.0 }; matrix.size]?;
    let near = value.scaled(1.0 + 1.0e-13);
    for _turn in 0..3 {
        iterate(alloc, matrix, near, &mut vector)?;
    }
    Ok(vector)
}
