//! What comes of a template in one step, as exact numbers: on each state, and by what drives it.

use crate::ends::Ends;
use fx_num::{Dyadic, Interval, dadd, dsub};
use fx_template_reach::{Linear, Pool, times, with_scaled};

/// With so many times a coefficient.
fn plus_product(total: Option<Dyadic>, own: Dyadic, coef: Dyadic) -> Option<Dyadic> {
    if own.m == 0 {
        return total;
    }
    match (total, times(own, coef)) {
        (Some(total), Some(product)) => dadd(total, product),
        _ => None,
    }
}

/// Without so many times a coefficient.
fn less_product(total: Option<Dyadic>, own: Dyadic, coef: Dyadic) -> Option<Dyadic> {
    if coef.m == 0 {
        return total;
    }
    match (total, times(own, coef)) {
        (Some(total), Some(product)) => dsub(total, product),
        _ => None,
    }
}

/// Coefficient `j` of what template `i` is of the next states.
fn image_coef(linear: &Linear, pool: &Pool, i: usize, j: usize) -> Option<Dyadic> {
    let mut total = Some(Dyadic::zero());
    for k in 0..linear.states {
        total = plus_product(total, pool.coef(i, k), linear.coef(k, j));
    }
    total
}

/// What the rests of the next states add to template `i`.
fn rests_of(linear: &Linear, pool: &Pool, i: usize) -> Option<Interval> {
    let mut total = Some(Interval::zero());
    for k in 0..linear.rests.len() {
        total = with_scaled(total, Some(pool.coef(i, k)), Some(linear.rests[k]));
    }
    total
}

/// What drives template `i`.
pub fn drive_of(linear: &Linear, pool: &Pool, i: usize) -> Option<Interval> {
    let mut total = rests_of(linear, pool, i);
    for j in 0..linear.spans.len() {
        let coef = image_coef(linear, pool, i, j);
        total = with_scaled(total, coef, Some(linear.spans[j]));
    }
    total
}

/// What the shares leave of template `i`'s image at state `j`.
pub fn left_coef(linear: &Linear, pool: &Pool, i: usize, j: usize) -> Option<Dyadic> {
    let mut left = image_coef(linear, pool, i, linear.inputs.saturating_add(j));
    for share in pool.shares(i) {
        let coef = pool.coef(share.template as usize, j);
        left = less_product(left, share.times, coef);
    }
    left
}

/// Where the template is at the start.
pub fn start_of(pool: &Pool, i: usize, starts: &[Interval], places: i32) -> Option<Ends> {
    let mut total = Some(Interval::zero());
    for k in 0..starts.len() {
        total = with_scaled(total, Some(pool.coef(i, k)), Some(starts[k]));
    }
    match total {
        Some(total) => Ends::around(total, places),
        None => None,
    }
}
