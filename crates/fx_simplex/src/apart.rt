//! Taking a combination of the variables apart by templates that stand, for the line of a node.

use crate::basis::exchange;
use crate::budget::Budget;
use crate::scaled_templates::ScaledTemplates;
use fx_cert::{Share, Template};
use fx_expr::Items;
use fx_num::{Dyadic, Interval, Memory, dsub};
use fx_template_reach::{PLACES, Pool, ceil_at, floor_at, magnitude, times, with_scaled};
use std::alloc::Global;

/// How many bits the widest bound has.
const SIZE_BITS: i32 = 44;

/// Templates by which a combination is bounded, and the bound.
#[derive(Drop)]
pub struct Apart {
    /// The templates, each so many times.
    pub shares: Items<Share>,
    /// Where the combination lies.
    pub bound: Interval,
}

/// A combination of the variables, of which the inputs stand first.
#[derive(Clone, Copy)]
pub struct Combination<'a> {
    /// A coefficient for each variable.
    pub coefs: &'a [Dyadic],
    /// Where each input lies.
    pub spans: &'a [Interval],
    /// What is added.
    pub rest: Interval,
}

impl Combination<'_> {
    /// The coefficient of state `k`.
    fn state_coef(&self, k: usize) -> Option<Dyadic> {
        self.coefs.get(self.spans.len().saturating_add(k)).copied()
    }
}

/// With so many places the widest bound has the wanted bits.
fn scale_of(templates: &[Template]) -> i32 {
    let mut top = -200;
    for template in templates {
        top = magnitude(template.bound).unwrap_or(-200).max(top);
    }
    SIZE_BITS.saturating_sub(top)
}

/// The templates with their bounds for reaches.
pub fn pool_of(alloc: Global, templates: &[Template], states: usize) -> Result<Pool, Memory> {
    let scale = scale_of(templates);
    let mut pool = Pool::new(alloc, states, scale, 0);
    for template in templates {
        let lo = floor_at(template.bound.lo, scale).unwrap_or(0);
        let hi = ceil_at(template.bound.hi, scale).unwrap_or(0);
        pool.push_known(alloc, template.coefs.as_slice(), (lo, hi))?;
    }
    Ok(pool)
}

/// The state part of a combination, with 48 binary places.
fn state_part(alloc: Global, c: &Combination<'_>, states: usize) -> Result<Vec<i128>, Memory> {
    let mut template = Vec::new(alloc);
    for k in 0..states {
        let coef = c.state_coef(k).unwrap_or(Dyadic::zero());
        template.push(floor_at(coef, PLACES as i32).unwrap_or(0))?;
    }
    Ok(template)
}

/// With the inputs by their own intervals.
fn with_inputs(c: &Combination<'_>) -> Option<Interval> {
    let mut total = Some(c.rest);
    for j in 0..c.spans.len().min(c.coefs.len()) {
        total = with_scaled(total, Some(c.coefs[j]), Some(c.spans[j]));
    }
    total
}

/// Where template `i` lies.
fn bound_at(templates: &[Template], i: usize) -> Option<Interval> {
    match templates.get(i) {
        Some(template) => Some(template.bound),
        None => None,
    }
}

/// With the shares.
fn with_shares(
    first: Option<Interval>,
    templates: &[Template],
    shares: &[Share],
) -> Option<Interval> {
    let mut total = first;
    for share in shares {
        let bound = bound_at(templates, share.template as usize);
        total = with_scaled(total, Some(share.times), bound);
    }
    total
}

/// Coefficient `k` of a template.
fn coef_at(templates: &[Template], i: u32, k: usize) -> Option<Dyadic> {
    match templates.get(i as usize) {
        Some(template) => template.coefs.as_slice().get(k).copied(),
        None => None,
    }
}

/// What a share takes of the coefficient of state `k`.
fn taken_of(templates: &[Template], share: Share, k: usize) -> Option<Dyadic> {
    match coef_at(templates, share.template, k) {
        Some(coef) => times(share.times, coef),
        None => None,
    }
}

/// What is left of a coefficient, if both are there.
fn less(coef: Option<Dyadic>, taken: Option<Dyadic>) -> Option<Dyadic> {
    match (coef, taken) {
        (Some(coef), Some(taken)) => dsub(coef, taken),
        _ => None,
    }
}

/// What the shares leave of the coefficient of state `k`.
fn left_of(
    coef: Option<Dyadic>,
    templates: &[Template],
    shares: &[Share],
    k: usize,
) -> Option<Dyadic> {
    let mut left = coef;
    for share in shares {
        left = less(left, taken_of(templates, *share, k));
    }
    left
}

/// With the states by their own templates.
fn with_states(
    first: Option<Interval>,
    c: &Combination<'_>,
    templates: &[Template],
    shares: &[Share],
    states: usize,
) -> Option<Interval> {
    let mut total = first;
    for k in 0..states {
        let left = left_of(c.state_coef(k), templates, shares, k);
        total = with_scaled(total, left, bound_at(templates, k));
    }
    total
}

/// Where a combination lies by these shares.
fn bound_of(
    c: &Combination<'_>,
    templates: &[Template],
    shares: &[Share],
    states: usize,
) -> Option<Interval> {
    let first = with_inputs(c);
    let second = with_shares(first, templates, shares);
    with_states(second, c, templates, shares, states)
}

/// Takes a combination apart by templates that stand, if its numbers have few enough bits. The templates are those that
/// were scaled.
pub fn take_apart(
    alloc: Global,
    c: &Combination<'_>,
    templates: &[Template],
    scaled: &ScaledTemplates<'_>,
    budget: &mut Budget,
) -> Result<Option<Apart>, Memory> {
    let states = scaled.states();
    let template = state_part(alloc, c, states)?;
    let found = exchange(alloc, scaled, &template, budget)?;
    match bound_of(c, templates, &found.shares, states) {
        Some(bound) => Ok(Some(Apart {
            shares: Items::from_vec(found.shares),
            bound,
        })),
        None => Ok(None),
    }
}
