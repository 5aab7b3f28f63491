//! Templates that take nothing of themselves, however far one follows what they take: those of delays and their sums.
//!
//! Their bounds are sums of what drives them, and each is exact once those that it takes are.

use crate::left::Left;
use fx_num::Memory;
use std::alloc::Global;

/// Marks a template.
fn mark(are_put: &mut [bool], i: usize) {
    if let Some(slot) = are_put.get_mut(i) {
        *slot = true;
    }
}

/// Puts those templates behind the others that take only what stands there. Whether there were some.
fn put_next(lefts: &[Left], are_put: &mut [bool], order: &mut Vec<usize>) -> Result<bool, Memory> {
    let before = order.len();
    for i in (0..lefts.len()).rev() {
        let is_new = !are_put.get(i).copied().unwrap_or(true);
        if is_new && lefts[i].takes_only(are_put) {
            order.push(i)?;
            mark(are_put, i);
        }
    }
    Ok(order.len() > before)
}

/// Puts the templates without a cycle in an order in which each stands behind all that it takes.
pub fn put_without_cycle(
    alloc: Global,
    lefts: &[Left],
    order: &mut Vec<usize>,
) -> Result<(), Memory> {
    let mut are_put = vec![in alloc; false; lefts.len()]?;
    for _turn in 0..lefts.len() {
        if !put_next(lefts, &mut are_put, order)? {
            return Ok(());
        }
    }
    Ok(())
}
