//! Units of the states, in which each reaches about as far.
//!
//! Where a signal is made a million times smaller and then as much greater, a template's entries of the small states
//! leave their bits, though all that it reaches is small. Units are powers of two, so that nothing is rounded by them.

use crate::float::{greater_of, power_of_two, size_of, to_float};
use crate::linear::Linear;
use fx_num::{Dyadic, Interval, Memory, left_fits, lowest};
use std::alloc::Global;

/// How many steps a response is followed.
const STEPS: usize = 4096;

/// The greatest unit, as a power of two.
const GREATEST: u32 = 64;

/// `d * 2^by`. None where that has too many bits.
pub fn moved(d: Dyadic, by: i32) -> Option<Dyadic> {
    let places = i64::from(d.e).saturating_sub(i64::from(by));
    if places < 0 {
        let more = u32::try_from(places.saturating_neg()).ok()?;
        return Some(lowest(left_fits(d.m, more)?, 0));
    }
    Some(lowest(d.m, u32::try_from(places).ok()?))
}

/// An interval times `2^by`, likewise.
pub fn moved_interval(x: Interval, by: i32) -> Option<Interval> {
    match (moved(x.lo, by), moved(x.hi, by)) {
        (Some(lo), Some(hi)) => Some(Interval { lo, hi }),
        _ => None,
    }
}

/// A unit as an exponent, 0 where none is given.
pub fn unit_at(units: &[u32], k: usize) -> i32 {
    let unit = units.get(k).copied().unwrap_or(0).min(GREATEST);
    i32::try_from(unit).unwrap_or(0)
}

/// A float near a dyadic.
fn float_of(d: Dyadic) -> f64 {
    to_float(d.m) * power_of_two(i32::try_from(d.e).unwrap_or(1023).saturating_neg())
}

/// How far an interval reaches from 0.
fn size_of_interval(x: Interval) -> f64 {
    greater_of(size_of(float_of(x.lo)), size_of(float_of(x.hi)))
}

/// How much of variable `j` comes to each next state.
fn column(alloc: Global, linear: &Linear, j: usize) -> Result<Vec<f64>, Memory> {
    let mut column = Vec::new(alloc);
    for k in 0..linear.states {
        column.push(float_of(linear.coef(k, j)))?;
    }
    Ok(column)
}

/// How much of each state comes to each next state.
fn columns_of(alloc: Global, linear: &Linear) -> Result<Vec<Vec<f64>>, Memory> {
    let mut columns = Vec::new(alloc);
    for j in 0..linear.states {
        columns.push(column(alloc, linear, linear.inputs.saturating_add(j))?)?;
    }
    Ok(columns)
}

/// Adds so many times a column.
fn add_column(sum: &mut [f64], column: &[f64], times: f64) {
    for k in 0..sum.len() {
        sum[k] = sum[k] + entry(column, k) * times;
    }
}

/// What a step makes of the states, whose columns these are.
fn image(alloc: Global, columns: &[Vec<f64>], states: &[f64]) -> Result<Vec<f64>, Memory> {
    let mut image = vec![in alloc; 0.0_f64; columns.len()]?;
    for j in 0..columns.len() {
        add_column(&mut image, columns[j].as_slice(), entry(states, j));
    }
    Ok(image)
}

/// An entry of a row, 0 where it has none.
fn entry(row: &[f64], i: usize) -> f64 {
    match row.get(i) {
        Some(x) => *x,
        None => 0.0,
    }
}

/// Adds the sizes of what comes to the states.
fn add_sizes(widths: &mut [f64], states: &[f64]) {
    for k in 0..widths.len() {
        widths[k] = widths[k] + size_of(entry(states, k));
    }
}

/// Adds how far what comes to the states once, each with such a size, brings each of them.
fn add_response(
    alloc: Global,
    columns: &[Vec<f64>],
    first: Vec<f64>,
    widths: &mut [f64],
) -> Result<(), Memory> {
    let mut now = first;
    for _step in 0..STEPS {
        add_sizes(widths, &now);
        now = image(alloc, columns, &now)?;
    }
    Ok(())
}

/// What an input that reaches so far from 0 brings to each next state at once.
fn scaled_column(alloc: Global, linear: &Linear, j: usize, size: f64) -> Result<Vec<f64>, Memory> {
    let mut own = column(alloc, linear, j)?;
    for k in 0..own.len() {
        own[k] = own[k] * size;
    }
    Ok(own)
}

/// What the rest of next state `k` brings to each at once.
fn rest_column(alloc: Global, linear: &Linear, k: usize, size: f64) -> Result<Vec<f64>, Memory> {
    let mut own = vec![in alloc; 0.0_f64; linear.states]?;
    if let Some(slot) = own.get_mut(k) {
        *slot = size;
    }
    Ok(own)
}

/// Adds how far the inputs and the rests bring each state.
fn add_responses(
    alloc: Global,
    linear: &Linear,
    columns: &[Vec<f64>],
    widths: &mut [f64],
) -> Result<(), Memory> {
    for j in 0..linear.spans.len() {
        let first = scaled_column(alloc, linear, j, size_of_interval(linear.spans[j]))?;
        add_response(alloc, columns, first, widths)?;
    }
    for k in 0..linear.rests.len() {
        let first = rest_column(alloc, linear, k, size_of_interval(linear.rests[k]))?;
        add_response(alloc, columns, first, widths)?;
    }
    Ok(())
}

/// How far the inputs and the rests bring each state, about.
fn widths_of(alloc: Global, linear: &Linear) -> Result<Vec<f64>, Memory> {
    let columns = columns_of(alloc, linear)?;
    let mut widths = vec![in alloc; 0.0_f64; linear.states]?;
    add_responses(alloc, linear, &columns, &mut widths)?;
    Ok(widths)
}

/// The power of two by which what reaches so far has to grow so that it reaches about as far as the widest.
fn unit_of(width: f64, widest: f64) -> u32 {
    let mut unit: u32 = 0;
    let mut width = width;
    for _step in 0..GREATEST {
        if width > 0.0 && width * 2.0 <= widest {
            width = width * 2.0;
            unit = unit.saturating_add(1);
        }
    }
    unit
}

/// The units in which the states of a step reach about as far.
pub fn units_of(alloc: Global, linear: &Linear) -> Result<Vec<u32>, Memory> {
    let widths = widths_of(alloc, linear)?;
    let mut widest = 0.0;
    for width in &widths {
        widest = greater_of(widest, *width);
    }
    let mut units = Vec::new(alloc);
    for width in &widths {
        units.push(unit_of(*width, widest))?;
    }
    Ok(units)
}

/// Where states lie in these units. None where numbers get too long.
pub fn in_units(
    alloc: Global,
    intervals: &[Interval],
    units: &[u32],
) -> Result<Option<Vec<Interval>>, Memory> {
    let mut list = Vec::new(alloc);
    for k in 0..intervals.len() {
        match moved_interval(intervals[k], unit_at(units, k)) {
            Some(own) => list.push(own)?,
            None => return Ok(None),
        }
    }
    Ok(Some(list))
}
