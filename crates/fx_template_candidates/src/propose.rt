//! What is proposed: templates with their bounds, kept for steps that differ in what drives them alone.

use crate::chains::{add_output_chains, unit_chains};
use crate::ends::Ends;
use crate::system::System;
use crate::tries::{Goal, Solved, put_bounds};
use fx_cert::{Share, Side, Template};
use fx_expr::Items;
use fx_num::{Dyadic, Interval, Memory, left_fits};
use fx_simplex::Budget;
use fx_template_reach::{
    Chain, Linear, Pool, Transition, in_units, moved, moved_interval, unit_at, units_of,
};
use std::alloc::Global;
use std::mem::replace;

/// How many bits two linear parts have in common that count as one.
const COMMON_BITS: u32 = 24;

/// Templates that might be kept, with the step that they were worked out for.
#[derive(Drop)]
pub struct Proposal {
    /// How much of each state comes to each next state, next state after next state.
    entries: Vec<i128>,
    /// The units of the states, as powers of two, in which the pool is.
    units: Vec<u32>,
    pool: Pool,
    /// The templates of the states themselves.
    templates: Items<Template>,
}

impl Proposal {
    /// The templates, the unit templates first.
    pub fn templates(&self) -> &[Template] {
        self.templates.as_slice()
    }

    /// The templates for good.
    pub fn into_templates(self) -> Items<Template> {
        self.templates
    }

    /// Whether entry `place` of the linear part agrees with another step's, with the sizes of the states counted.
    fn agrees_at(&self, linear: &Linear, place: usize) -> bool {
        let k = place.checked_div(linear.states).unwrap_or(0);
        let j = place.checked_rem(linear.states).unwrap_or(0);
        let own = self.entries.get(place).copied().unwrap_or(0);
        let difference = linear.entry(k, j).abs_diff(own);
        let most = left_fits(self.pool.templates.width(k), COMMON_BITS).unwrap_or(i128::MAX);
        difference.saturating_mul(self.pool.templates.width(j).unsigned_abs())
            <= most.unsigned_abs()
    }

    /// Whether the linear part agrees with another step's.
    fn agrees(&self, linear: &Linear) -> bool {
        for place in 0..linear.states.saturating_mul(linear.states) {
            if !self.agrees_at(linear, place) {
                return false;
            }
        }
        linear.states == self.pool.templates.states
    }

    /// Takes bounds that were found. Whether they have few enough bits.
    fn put(&mut self, alloc: Global, system: &System, bounds: &[Ends]) -> Result<bool, Memory> {
        if put_bounds(&mut self.pool, system, bounds) {
            self.put_templates(alloc, system, bounds)
        } else {
            Ok(false)
        }
    }

    /// Takes the templates of the pool with these bounds, likewise.
    fn put_templates(
        &mut self,
        alloc: Global,
        system: &System,
        bounds: &[Ends],
    ) -> Result<bool, Memory> {
        match templates_of(alloc, &self.pool, system, bounds, &self.units)? {
            Some(templates) => {
                self.templates = templates;
                Ok(true)
            }
            None => Ok(false),
        }
    }

    /// Fills in the linear part, and the templates of the pool with these bounds, likewise.
    fn fill(
        &mut self,
        alloc: Global,
        linear: &Linear,
        system: &System,
        bounds: &[Ends],
    ) -> Result<bool, Memory> {
        self.entries = entries_of(alloc, linear)?;
        self.put_templates(alloc, system, bounds)
    }

    /// Takes the bounds that the same templates with the same shares have by these left sides. Whether some are found.
    fn solve(&mut self, alloc: Global, system: &System) -> Result<bool, Memory> {
        let mut bounds = Vec::new(alloc);
        if system.solve(alloc, &self.pool, &mut bounds)? {
            self.put(alloc, system, &bounds)
        } else {
            Ok(false)
        }
    }

    /// Takes the bounds that the same templates with the same shares have for another step, if its linear part is the
    /// same. Whether some are found.
    fn adapt_to(
        &mut self,
        alloc: Global,
        linear: &Linear,
        starts: &[Interval],
    ) -> Result<bool, Memory> {
        if self.agrees(linear) {
            self.solve_for(alloc, linear, starts)
        } else {
            Ok(false)
        }
    }

    /// Takes the bounds that the same templates have for another step, likewise.
    fn solve_for(
        &mut self,
        alloc: Global,
        linear: &Linear,
        starts: &[Interval],
    ) -> Result<bool, Memory> {
        let mut system = System::empty(alloc);
        if system.fill(alloc, linear, &self.pool, starts)? {
            self.solve(alloc, &system)
        } else {
            Ok(false)
        }
    }

    /// Takes the bounds for the step of a transition, likewise.
    fn adapt(
        &mut self,
        alloc: Global,
        t: &Transition,
        side: &Side,
        starts: &[Interval],
    ) -> Result<bool, Memory> {
        match in_units(alloc, starts, &self.units)? {
            Some(starts) => self.adapt_from(alloc, t, side, &starts),
            None => Ok(false),
        }
    }

    /// Takes the bounds for it from these starts in the pool's units, likewise.
    fn adapt_from(
        &mut self,
        alloc: Global,
        t: &Transition,
        side: &Side,
        starts: &[Interval],
    ) -> Result<bool, Memory> {
        match Linear::of(alloc, t, side, starts, &self.units)? {
            Some(linear) => self.adapt_to(alloc, &linear, starts),
            None => Ok(false),
        }
    }
}

/// The unit that template `i` has itself: that of its state, if it is a unit template.
fn own_unit(pool: &Pool, units: &[u32], i: usize) -> i32 {
    if i < pool.templates.states {
        unit_at(units, i)
    } else {
        0
    }
}

/// The coefficients of a template over the states themselves.
fn template_coefs(
    alloc: Global,
    pool: &Pool,
    units: &[u32],
    i: usize,
) -> Result<Option<Items<Dyadic>>, Memory> {
    let own = own_unit(pool, units, i);
    let mut coefs = Vec::new(alloc);
    for j in 0..pool.templates.states {
        match moved(pool.coef(i, j), unit_at(units, j).saturating_sub(own)) {
            Some(coef) => coefs.push(coef)?,
            None => return Ok(None),
        }
    }
    Ok(Some(Items::from_vec(coefs)))
}

/// The shares of a template.
fn template_shares(
    alloc: Global,
    pool: &Pool,
    units: &[u32],
    i: usize,
) -> Result<Option<Items<Share>>, Memory> {
    let own = own_unit(pool, units, i);
    let mut shares = Vec::new(alloc);
    for share in pool.shares(i) {
        let other = own_unit(pool, units, share.template as usize);
        match moved(share.times, other.saturating_sub(own)) {
            Some(times) => shares.push(Share {
                template: share.template,
                times,
            })?,
            None => return Ok(None),
        }
    }
    Ok(Some(Items::from_vec(shares)))
}

/// A template of a pool with this bound, over the states themselves.
fn template_of(
    alloc: Global,
    pool: &Pool,
    units: &[u32],
    i: usize,
    bound: Interval,
) -> Result<Option<Template>, Memory> {
    let own = own_unit(pool, units, i);
    match moved_interval(bound, own.saturating_neg()) {
        Some(bound) => template_within(alloc, pool, units, i, bound),
        None => Ok(None),
    }
}

/// The template with its bound over the states themselves.
fn template_within(
    alloc: Global,
    pool: &Pool,
    units: &[u32],
    i: usize,
    bound: Interval,
) -> Result<Option<Template>, Memory> {
    match template_coefs(alloc, pool, units, i)? {
        Some(coefs) => template_with(alloc, pool, units, i, bound, coefs),
        None => Ok(None),
    }
}

/// The template with its bound and its coefficients over the states themselves.
fn template_with(
    alloc: Global,
    pool: &Pool,
    units: &[u32],
    i: usize,
    bound: Interval,
    coefs: Items<Dyadic>,
) -> Result<Option<Template>, Memory> {
    match template_shares(alloc, pool, units, i)? {
        Some(shares) => Ok(Some(Template {
            coefs,
            bound,
            shares,
        })),
        None => Ok(None),
    }
}

/// Puts a template of a pool with this bound behind others. False where numbers get too long.
fn put_template(
    alloc: Global,
    pool: &Pool,
    units: &[u32],
    i: usize,
    bound: Interval,
    templates: &mut Vec<Template>,
) -> Result<bool, Memory> {
    match template_of(alloc, pool, units, i, bound)? {
        Some(template) => {
            templates.push(template)?;
            Ok(true)
        }
        None => Ok(false),
    }
}

/// Puts all of them, likewise.
fn put_templates(
    alloc: Global,
    pool: &Pool,
    system: &System,
    bounds: &[Ends],
    units: &[u32],
    templates: &mut Vec<Template>,
) -> Result<bool, Memory> {
    for i in 0..bounds.len() {
        let bound = system.interval(i, bounds[i]);
        if !put_template(alloc, pool, units, i, bound, templates)? {
            return Ok(false);
        }
    }
    Ok(true)
}

/// The templates of a pool with these bounds. None where numbers get too long.
fn templates_of(
    alloc: Global,
    pool: &Pool,
    system: &System,
    bounds: &[Ends],
    units: &[u32],
) -> Result<Option<Items<Template>>, Memory> {
    let mut templates = Vec::new(alloc);
    if put_templates(alloc, pool, system, bounds, units, &mut templates)? {
        Ok(Some(Items::from_vec(templates)))
    } else {
        Ok(None)
    }
}

/// The linear part of a step, entry after entry.
fn entries_of(alloc: Global, linear: &Linear) -> Result<Vec<i128>, Memory> {
    let mut entries = Vec::new(alloc);
    for place in 0..linear.states.saturating_mul(linear.states) {
        let k = place.checked_div(linear.states).unwrap_or(0);
        let j = place.checked_rem(linear.states).unwrap_or(0);
        entries.push(linear.entry(k, j))?;
    }
    Ok(entries)
}

/// What was found for a step in these units.
fn proposal_of(
    alloc: Global,
    linear: &Linear,
    units: Vec<u32>,
    solved: Solved,
) -> Result<Option<Proposal>, Memory> {
    let Solved {
        pool,
        system,
        bounds,
        ..
    } = solved;
    proposal_with(alloc, linear, units, pool, &system, &bounds)
}

/// What was found, by the bounds of a pool.
fn proposal_with(
    alloc: Global,
    linear: &Linear,
    units: Vec<u32>,
    pool: Pool,
    system: &System,
    bounds: &[Ends],
) -> Result<Option<Proposal>, Memory> {
    let mut proposal = Proposal {
        entries: Vec::new(alloc),
        units,
        pool,
        templates: Items::from_vec(Vec::new(alloc)),
    };
    if proposal.fill(alloc, linear, system, bounds)? {
        Ok(Some(proposal))
    } else {
        Ok(None)
    }
}

/// The chains that templates begin with. None where one isn't bounded.
fn chains_of(
    alloc: Global,
    t: &Transition,
    linear: &Linear,
    units: &[u32],
) -> Result<Option<Vec<Chain>>, Memory> {
    match unit_chains(alloc, linear)? {
        Some(first) => {
            let mut chains = first;
            add_output_chains(alloc, t, linear, units, &mut chains)?;
            Ok(Some(chains))
        }
        None => Ok(None),
    }
}

/// Units in which all states of a step reach about as far, if its numbers have few enough bits.
fn reaching_units(
    alloc: Global,
    t: &Transition,
    side: &Side,
    starts: &[Interval],
) -> Result<Option<Vec<u32>>, Memory> {
    match Linear::of(alloc, t, side, starts, &[])? {
        Some(linear) => {
            let units = units_of(alloc, &linear)?;
            Ok(Some(units))
        }
        None => Ok(None),
    }
}

/// A step in some units of the states, with the chains that templates begin with.
#[derive(Drop)]
struct Measured {
    linear: Linear,
    units: Vec<u32>,
    starts: Vec<Interval>,
    chains: Vec<Chain>,
}

impl Measured {
    /// The step of a transition in these units, if its numbers have few enough bits and its chains are bounded.
    fn of(
        alloc: Global,
        t: &Transition,
        side: &Side,
        starts: &[Interval],
        units: Vec<u32>,
    ) -> Result<Option<Measured>, Memory> {
        match in_units(alloc, starts, &units)? {
            Some(starts) => Measured::from(alloc, t, side, starts, units),
            None => Ok(None),
        }
    }

    /// It from these starts in its units, likewise.
    fn from(
        alloc: Global,
        t: &Transition,
        side: &Side,
        starts: Vec<Interval>,
        units: Vec<u32>,
    ) -> Result<Option<Measured>, Memory> {
        match Linear::of(alloc, t, side, &starts, &units)? {
            Some(linear) => {
                let measured = Measured {
                    linear,
                    units,
                    starts,
                    chains: Vec::new(alloc),
                };
                measured.with_chains(alloc, t)
            }
            None => Ok(None),
        }
    }

    /// It with its chains, likewise.
    fn with_chains(self, alloc: Global, t: &Transition) -> Result<Option<Measured>, Memory> {
        let mut measured = self;
        if measured.put_chains(alloc, t)? {
            Ok(Some(measured))
        } else {
            Ok(None)
        }
    }

    /// Puts the chains. False where one isn't bounded.
    fn put_chains(&mut self, alloc: Global, t: &Transition) -> Result<bool, Memory> {
        match chains_of(alloc, t, &self.linear, &self.units)? {
            Some(chains) => {
                self.chains = chains;
                Ok(true)
            }
            None => Ok(false),
        }
    }

    /// The step of a transition with its states as they are, and where its numbers are too long for that in units in
    /// which all reach about as far.
    fn found(
        alloc: Global,
        t: &Transition,
        side: &Side,
        starts: &[Interval],
    ) -> Result<Option<Measured>, Memory> {
        match Measured::of(alloc, t, side, starts, Vec::new(alloc))? {
            Some(measured) => Ok(Some(measured)),
            None => Measured::in_other_units(alloc, t, side, starts),
        }
    }

    /// It in units in which all states reach about as far.
    fn in_other_units(
        alloc: Global,
        t: &Transition,
        side: &Side,
        starts: &[Interval],
    ) -> Result<Option<Measured>, Memory> {
        match reaching_units(alloc, t, side, starts)? {
            Some(units) => Measured::of(alloc, t, side, starts, units),
            None => Ok(None),
        }
    }

    /// Templates for the step, looked for from the beginning.
    fn proposal(&mut self, alloc: Global, budget: &mut Budget) -> Result<Option<Proposal>, Memory> {
        match self.best(alloc, budget)? {
            Some(solved) => {
                let units = replace(&mut self.units, Vec::new(alloc));
                proposal_of(alloc, &self.linear, units, solved)
            }
            None => Ok(None),
        }
    }

    /// The best templates that the chains begin.
    fn best(&self, alloc: Global, budget: &mut Budget) -> Result<Option<Solved>, Memory> {
        let goal = Goal {
            alloc,
            linear: &self.linear,
            chains: &self.chains,
            starts: &self.starts,
        };
        let mut best = None;
        goal.try_all(&mut best, budget)?;
        Ok(best)
    }
}

/// Templates for the step of a transition, looked for from the beginning.
fn found(
    alloc: Global,
    t: &Transition,
    side: &Side,
    starts: &[Interval],
    budget: &mut Budget,
) -> Result<Option<Proposal>, Memory> {
    match Measured::found(alloc, t, side, starts)? {
        Some(found) => {
            let mut measured = found;
            measured.proposal(alloc, budget)
        }
        None => Ok(None),
    }
}

/// What was proposed before with bounds for another step, where these are found, else templates looked for anew.
fn adapted_or_found(
    alloc: Global,
    t: &Transition,
    side: &Side,
    starts: &[Interval],
    proposal: Proposal,
    budget: &mut Budget,
) -> Result<Option<Proposal>, Memory> {
    match adapted(alloc, t, side, starts, proposal)? {
        Some(proposal) => Ok(Some(proposal)),
        None => found(alloc, t, side, starts, budget),
    }
}

/// What was proposed before with bounds for another step, where these are found.
fn adapted(
    alloc: Global,
    t: &Transition,
    side: &Side,
    starts: &[Interval],
    before: Proposal,
) -> Result<Option<Proposal>, Memory> {
    let mut proposal = before;
    if proposal.adapt(alloc, t, side, starts)? {
        Ok(Some(proposal))
    } else {
        Ok(None)
    }
}

/// Templates of the one kind that might be kept, and that hold the starts if some are given.
///
/// What was proposed `before`, for a step of as many states, is kept where the linear part is the same: then only
/// bounds are worked out anew.
pub fn propose_templates(
    alloc: Global,
    t: &Transition,
    side: &Side,
    starts: Option<&[Interval]>,
    before: Option<Proposal>,
) -> Result<Option<Proposal>, Memory> {
    propose_templates_within(alloc, t, side, starts, before, &mut Budget::whole())
}

/// Templates of the one kind that might be kept, found with no more work for exchanges than the budget allows.
pub fn propose_templates_within(
    alloc: Global,
    t: &Transition,
    side: &Side,
    starts: Option<&[Interval]>,
    before: Option<Proposal>,
    budget: &mut Budget,
) -> Result<Option<Proposal>, Memory> {
    let starts = starts.unwrap_or(&[]);
    match before {
        Some(proposal) => adapted_or_found(alloc, t, side, starts, proposal, budget),
        None => found(alloc, t, side, starts, budget),
    }
}
