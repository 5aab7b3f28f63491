//! Templates in coordinates in which each costs 1: what an exchange works on.

use fx_num::Memory;
use fx_template_reach::{PLACES, Pool, power_of_two, size_of, to_float};
use std::alloc::Global;

/// The templates of a pool in coordinates in which each costs 1.
#[derive(Drop)]
pub struct ScaledTemplates<'a> {
    pool: &'a Pool,
    /// What each template costs.
    pub(crate) costs: Vec<f64>,
    /// The entries, template after template.
    entries: Vec<f64>,
}

/// A unit of a template's entries.
fn entry_unit() -> f64 {
    power_of_two(-(PLACES as i32))
}

/// Puts a template in coordinates in which each state costs 1, over a divisor, behind others.
fn push_scaled(
    entries: &mut Vec<f64>,
    template: &[i128],
    costs: &[f64],
    divisor: f64,
) -> Result<(), Memory> {
    let unit = entry_unit();
    for j in 0..template.len().min(costs.len()) {
        entries.push(to_float(template[j]) * unit * (costs[j] / divisor))?;
    }
    Ok(())
}

/// A template in coordinates in which each state costs 1, over a divisor.
pub(crate) fn scaled(
    alloc: Global,
    template: &[i128],
    costs: &[f64],
    divisor: f64,
) -> Result<Vec<f64>, Memory> {
    let mut scaled = Vec::new(alloc);
    push_scaled(&mut scaled, template, costs, divisor)?;
    Ok(scaled)
}

/// What a template costs on the unit templates.
pub(crate) fn scaled_size(template: &[i128], costs: &[f64]) -> f64 {
    let unit = entry_unit();
    let mut total = 0.0;
    for j in 0..template.len().min(costs.len()) {
        total = total + size_of(to_float(template[j]) * unit * costs[j]);
    }
    total
}

/// What the templates of a pool cost.
fn costs_of(alloc: Global, pool: &Pool) -> Result<Vec<f64>, Memory> {
    let mut costs = Vec::new(alloc);
    for i in 0..pool.templates.len() {
        costs.push(to_float(pool.cost(i).max(1)))?;
    }
    Ok(costs)
}

/// The entries of the templates of a pool in coordinates in which each costs 1.
fn entries_of(alloc: Global, pool: &Pool, costs: &[f64]) -> Result<Vec<f64>, Memory> {
    let mut entries = Vec::new(alloc);
    for i in 0..costs.len() {
        push_scaled(&mut entries, pool.templates.template(i), costs, costs[i])?;
    }
    Ok(entries)
}

impl<'a> ScaledTemplates<'a> {
    /// The templates of a pool.
    pub fn of(alloc: Global, pool: &'a Pool) -> Result<ScaledTemplates<'a>, Memory> {
        let costs = costs_of(alloc, pool)?;
        let entries = entries_of(alloc, pool, &costs)?;
        Ok(ScaledTemplates {
            pool,
            costs,
            entries,
        })
    }

    /// How many states the templates are of.
    pub fn states(&self) -> usize {
        self.pool.templates.states
    }

    /// Template `i`.
    pub(crate) fn template(&self, i: usize) -> &[f64] {
        let from = i.saturating_mul(self.states());
        let to = from.saturating_add(self.states());
        self.entries.as_slice().get(from..to).unwrap_or(&[])
    }
}
