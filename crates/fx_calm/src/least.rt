//! The least number at which all things of a kind are within their limit.
//!
//! A number that is enough for the first things is raised only where the next one asks for more, so that each is tried
//! little more than once. That what was enough stays so is a fact of each limit.

ghost use Rattle.std.specs.Prelude.{◌+◌, ◌<◌, ◌≤◌, IfOk};
ghost use Rattle.fx_calm.specs.LimitOf.{count_of, is_within, IsReady, IsLeast, IsLeastAt, IsLeastOfBoth};

use crate::limit::{Limit, count, is_within};
use crate::summand::Summand;
use fx_expr::Function;
use fx_num::Memory;

/// The least number from `first` on at which thing `i` is within the limit; that behind `last` where there is none.
fn least_at(
    summands: &mut Vec<Summand>,
    function: &Function,
    limit: Limit,
    i: u32,
    first: u32,
    last: u32,
) -> Result<u32, Memory>
    requires ready { IsReady function.now limit }
    requires within { i < count_of function.now limit }
    requires few { last ≤ 60 }
    requires from { first ≤ last + 1 }
    ensures { IfOk result (λ w. IsLeastAt function.now limit i first last w) }
{
    for w in first..last + 1 {
        if is_within(summands, function, limit, i, w)? {
            return Ok(w);
        }
    }
    Ok(last + 1)
}

/// The least number from `first` on at which all are; that behind `last` where there is none.
pub fn least(
    summands: &mut Vec<Summand>,
    function: &Function,
    limit: Limit,
    first: u32,
    last: u32,
) -> Result<u32, Memory>
    requires ready { IsReady function.now limit }
    requires few { last ≤ 60 }
    requires from { first ≤ last + 1 }
    ensures { IfOk result (λ w. IsLeast function.now limit first last (count_of function.now limit) w) }
{
    let mut w = first;
    for i in 0..count(function, limit) {
        w = least_at(summands, function, limit, i, w, last)?;
    }
    Ok(w)
}

/// The least number from `first` on at which two limits hold together; that behind `last` where there is none.
pub fn least_of_both(
    summands: &mut Vec<Summand>,
    function: &Function,
    one: Limit,
    other: Limit,
    first: u32,
    last: u32,
) -> Result<u32, Memory>
    requires one { IsReady function.now one }
    requires other { IsReady function.now other }
    requires few { last ≤ 60 }
    requires from { first ≤ last + 1 }
    ensures { IfOk result (λ w. IsLeastOfBoth function.now one other first last w) }
{
    let w = least(summands, function, one, first, last)?;
    least(summands, function, other, w, last)
}
