//! What a plan costs.
//!
//! First comes how far an output is from what it has to keep, then the bounds' mean. What fails costs more than any
//! plan, and the less the further on in the list of nodes it fails.

use crate::ends::end_excess;
use crate::setting::Setting;
use fx_expr::Demand;
use fx_fraction::{Decimal, to_fraction};
use fx_search_numbers::{FixedInterval, Rounded};

/// What bounds are measured by: those of another plan.
#[derive(Clone, Copy)]
pub struct Goal<'a> {
    /// The bounds of the other plan, one for each output. Where there is none, 1 stands for it.
    pub references: &'a [Rounded],
}

/// What is paid for a plan, or for none. Their order is that of the costs: any plan's is below that of none, then the
/// excess decides, and of equal ones the mean.
#[derive(Clone, Copy, PartialEq, PartialOrd)]
pub enum Cost {
    /// The greatest quotient of a bound by what it has to keep, but at least 1, and more where an output leaves a
    /// demanded end; and the mean of those by the references.
    Planned { excess: Rounded, mean: Rounded },
    /// There is no plan: from the node that fails on so many are left.
    Unplanned { left: u32 },
}

/// About a decimal.
fn about(d: Decimal) -> Rounded {
    let c = to_fraction(d);
    Rounded::of(c.p, 0).over(Rounded::of(c.q, 0))
}

/// About the bound that an error interval gives.
pub fn bound(error: FixedInterval) -> Rounded {
    match i128::try_from(error.size()) {
        Ok(m) => Rounded::of(m, error.e),
        Err(_) => Rounded::INFINITE,
    }
}

/// The bound that an output's is measured by, which is 1 where there is none.
fn reference(goal: Goal<'_>, j: usize) -> Rounded {
    let bound = goal.references.get(j).copied().unwrap_or(Rounded::ONE);
    if bound.is_zero() { Rounded::ONE } else { bound }
}

/// How far an output is from what is demanded of it: at least 1, and 1 where all of it is kept.
fn demand_excess(
    demand: Demand,
    range: Option<FixedInterval>,
    error: FixedInterval,
    bound: Rounded,
) -> Rounded {
    let by_error = match demand.err {
        Some(d) => Rounded::ONE.max(bound.over(about(d))),
        None => Rounded::ONE,
    };
    match range {
        Some(range) => by_error.max(end_excess(demand, range, error, bound)),
        None => by_error,
    }
}

/// What the outputs' errors cost.
pub fn cost_of(setting: &Setting<'_>, outputs: &[FixedInterval]) -> Cost {
    let function = setting.function;
    let demands = function.demands.as_slice();
    let first = setting.first_output();
    let mut excess = Rounded::ONE;
    let mut sum = Rounded::ZERO;
    let mut count = 0_i64;
    for (j, error) in outputs.iter().enumerate() {
        let size = bound(*error);
        let ratio = size.over(reference(setting.goal, j));
        sum = sum.plus(ratio);
        count = count.saturating_add(1);
        if let Some(demand) = demands.get(j) {
            let range = setting.ranges.span(first.saturating_add(j));
            excess = excess.max(demand_excess(*demand, range, *error, size));
        }
    }
    Cost::Planned {
        excess,
        mean: sum.over(Rounded::of(i128::from(count), 0)),
    }
}
