//! Where states start: their values, and what their words err.

use crate::code::start_word;
use fx_expr::Function;
use fx_fraction::to_fraction;
use fx_search_numbers::{FixedInterval, Grids, range_between, word_error};

/// Where the start value of state `k` lies, outward on a grid.
pub fn start_range(function: &Function, k: usize, grids: Grids) -> Option<FixedInterval> {
    match function.states.as_slice().get(k) {
        Some(state) => {
            let start = to_fraction(state.start);
            range_between(start, start, grids)
        }
        None => None,
    }
}

/// By how much the start word of state `k` at a point differs from the start value.
pub fn start_error(
    function: &Function,
    k: usize,
    point: i32,
    width: u32,
    grids: Grids,
) -> Option<FixedInterval> {
    match (
        function.states.as_slice().get(k),
        start_word(function, k, point, width),
    ) {
        (Some(state), Some(w)) => word_error(to_fraction(state.start), i128::from(w), point, grids),
        _ => None,
    }
}
