//! What chains begin with: the unit templates, and what the outputs take of the states.

use fx_cert::affine_coef;
use fx_num::Memory;
use fx_template_reach::{
    Ahead, Chain, Linear, PLACES, Transition, floor_at, look_ahead, unit_at, unit_cost, unit_vector,
};
use std::alloc::Global;

/// The chains that begin with the unit templates. None where one isn't bounded.
pub fn unit_chains(alloc: Global, linear: &Linear) -> Result<Option<Vec<Chain>>, Memory> {
    let mut chains = Vec::new(alloc);
    if put_unit_chains(alloc, linear, &mut chains)? {
        Ok(Some(chains))
    } else {
        Ok(None)
    }
}

/// Puts them behind others. False where one isn't bounded.
fn put_unit_chains(
    alloc: Global,
    linear: &Linear,
    chains: &mut Vec<Chain>,
) -> Result<bool, Memory> {
    for k in 0..linear.states {
        let template = unit_vector(alloc, linear.states, k, 1 << PLACES)?;
        if !put_chain(alloc, linear, &template, k, chains)? {
            return Ok(false);
        }
    }
    Ok(true)
}

/// Puts the chain of a state's unit template behind others, likewise.
fn put_chain(
    alloc: Global,
    linear: &Linear,
    template: &[i128],
    k: usize,
    chains: &mut Vec<Chain>,
) -> Result<bool, Memory> {
    match look_ahead(alloc, linear, template)? {
        Some(ahead) => {
            chains.push(Chain {
                ahead,
                state: Some(k),
            })?;
            Ok(true)
        }
        None => Ok(false),
    }
}

/// What a node takes of the states, in these units.
fn state_part(
    alloc: Global,
    t: &Transition,
    node: u32,
    units: &[u32],
) -> Result<Vec<i128>, Memory> {
    let variables = t.inputs.saturating_add(t.states);
    let mut template = Vec::new(alloc);
    for k in 0..t.states {
        let coef = affine_coef(&t.lines, variables, node, t.inputs.saturating_add(k));
        let places = (PLACES as i32).saturating_sub(unit_at(units, k as usize));
        template.push(floor_at(coef, places).unwrap_or(0))?;
    }
    Ok(template)
}

/// Whether a template takes anything.
fn takes_some(template: &[i128]) -> bool {
    let mut is_some = false;
    for entry in template {
        is_some = is_some || *entry != 0;
    }
    is_some
}

/// Whether a template begins a chain, or is the image of what begins one.
fn is_known(chains: &[Chain], template: &[i128]) -> bool {
    for chain in chains {
        if chain.ahead.templates.template(0) == template
            || chain.ahead.templates.template(1) == template
        {
            return true;
        }
    }
    false
}

/// Whether a template costs clearly more on the unit templates than it reaches.
fn is_worth(ahead: &Ahead, template: &[i128], widths: &[i128]) -> bool {
    match unit_cost(template, widths) {
        Some(cost) => cost.saturating_mul(64) > ahead.templates.width(0).saturating_mul(65),
        None => false,
    }
}

/// How wide the first template of each of the first `count` chains reaches.
pub(crate) fn widths_of(
    alloc: Global,
    chains: &[Chain],
    count: usize,
) -> Result<Vec<i128>, Memory> {
    let mut widths = Vec::new(alloc);
    for chain in chains.iter().take(count) {
        widths.push(chain.ahead.templates.width(0))?;
    }
    Ok(widths)
}

/// Adds a chain that begins with no unit template, if it is bounded and worth its place.
fn add_chain(
    alloc: Global,
    linear: &Linear,
    template: &[i128],
    widths: &[i128],
    chains: &mut Vec<Chain>,
) -> Result<(), Memory> {
    match look_ahead(alloc, linear, template)? {
        Some(ahead) => {
            if is_worth(&ahead, template, widths) {
                chains.push(Chain { ahead, state: None })?;
            }
            Ok(())
        }
        None => Ok(()),
    }
}

/// Adds the chain that begins with what a node takes of the states, if that is something new.
fn add_output_chain(
    alloc: Global,
    t: &Transition,
    linear: &Linear,
    node: u32,
    units: &[u32],
    widths: &[i128],
    chains: &mut Vec<Chain>,
) -> Result<(), Memory> {
    let template = state_part(alloc, t, node, units)?;
    if takes_some(&template) && !is_known(chains, &template) {
        add_chain(alloc, linear, &template, widths, chains)
    } else {
        Ok(())
    }
}

/// Adds the chains that begin with what the outputs take of the states.
pub fn add_output_chains(
    alloc: Global,
    t: &Transition,
    linear: &Linear,
    units: &[u32],
    chains: &mut Vec<Chain>,
) -> Result<(), Memory> {
    let widths = widths_of(alloc, chains, chains.len())?;
    for node in t.next.saturating_sub(t.outputs)..t.next {
        add_output_chain(alloc, t, linear, node, units, &widths, chains)?;
    }
    Ok(())
}
