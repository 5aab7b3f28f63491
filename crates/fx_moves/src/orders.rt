//! The directed forms of a function, by number: one for each order of its variables, and for each order another with
//! squares by themselves.

use crate::cleaning::clean_all;
use crate::draft::Draft;
use crate::forms::{expand_all, factor_by, pair_squares};
use fx_expr::Function;
use fx_num::Memory;
use std::alloc::Global;

/// A function with more variables than these has no forms.
const MOST_VARIABLES: usize = 16;

/// How many variables stand in any order, at most.
const PERMUTED: usize = 3;

/// How many of more variables begin an order.
const BEGUN: usize = 6;

/// How many variables a function has: its inputs and its temps.
fn variables(function: &Function) -> usize {
    function.inputs.len().saturating_add(function.temps.len())
}

/// How many orders so many variables are taken in.
fn orders(count: usize) -> usize {
    match count {
        0 | 1 | 2 => count,
        3 => 6,
        _ => count.min(BEGUN).saturating_mul(2),
    }
}

/// Numbers from 0 on.
fn numbers(alloc: Global, count: usize) -> Result<Vec<u32>, Memory> {
    let mut list = Vec::new(alloc);
    for number in 0..count {
        list.push(u32::try_from(number).unwrap_or(u32::MAX))?;
    }
    Ok(list)
}

/// The permutation of this number.
fn permutation(alloc: Global, count: usize, number: usize) -> Result<Vec<u32>, Memory> {
    let mut left = numbers(alloc, count)?;
    let mut code = number;
    let mut order = Vec::new(alloc);
    for _turn in 0..count {
        let several = left.len();
        let i = code.checked_rem(several).unwrap_or(0);
        code = code.checked_div(several).unwrap_or(0);
        if i < left.len() {
            order.push(left.remove(i))?;
        }
    }
    Ok(order)
}

/// All variables from one on, up or down, and round.
fn rotation(alloc: Global, count: usize, number: usize) -> Result<Vec<u32>, Memory> {
    let first = number / 2;
    let mut order = Vec::new(alloc);
    for turn in 0..count {
        let place = if number % 2 == 0 {
            first.saturating_add(turn)
        } else {
            first.saturating_add(count).saturating_sub(turn)
        };
        let variable = place.checked_rem(count).unwrap_or(0);
        order.push(u32::try_from(variable).unwrap_or(u32::MAX))?;
    }
    Ok(order)
}

/// The order of this number.
fn order_of(alloc: Global, count: usize, number: usize) -> Result<Vec<u32>, Memory> {
    if count <= PERMUTED {
        permutation(alloc, count, number)
    } else {
        rotation(alloc, count, number)
    }
}

/// Makes the form by this order of the variables, with squares by themselves or not.
fn form_by(
    alloc: Global,
    draft: &mut Draft,
    order: &[u32],
    has_squares: bool,
) -> Result<bool, Memory> {
    clean_all(alloc, draft)?;
    expand_all(alloc, draft)?;
    factor_by(alloc, draft, order)?;
    if has_squares {
        pair_squares(alloc, draft)?;
    }
    Ok(true)
}

/// Makes the form of this number of a draft that stands at its source, and answers whether there is one.
pub fn form(alloc: Global, draft: &mut Draft, number: u32) -> Result<bool, Memory> {
    let count = variables(&draft.function);
    let place = (number / 2) as usize;
    if count > MOST_VARIABLES || place >= orders(count) {
        Ok(false)
    } else {
        let order = order_of(alloc, count, place)?;
        let was = draft.direct(true);
        let is_made = form_by(alloc, draft, &order, number % 2 == 1);
        let _ = draft.direct(was);
        is_made
    }
}
