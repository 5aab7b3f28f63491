//! The narrowest interval round what a formula comes to.

ghost use Rattle.std.specs.Prelude.{◌≡◌};
ghost use Rattle.fx_rational.specs.Interval as model;
ghost use Rattle.fx_inequalities.specs.Formula.{Span, span};
ghost use Rattle.fx_inequalities.specs.Claim.{inside};
ghost use Rattle.fx_outward.specs.Narrow.{narrow, span_bounds, narrowest};
ghost use Rattle.fx_formulas.specs.Judging.{FormsSpan};
ghost use Rattle.fx_outward.specs.Narrowed.{IsIfSmall, answer_of, bounds_of};
ghost use Rattle.fx_outward.specs.Wide.{IsEnd};

use crate::fault::Why;
use crate::grid::{down, is_small, up};
use fx_num::{Dyadic, Interval};

/// The interval, where its mantissas have at most 62 bits.
pub fn keep(x: Interval) -> Option<Interval>
    ensures { IsIfSmall result x }
{
    if is_small(x.lo) && is_small(x.hi) {
        Some(x)
    } else {
        None
    }
}

/// The narrowest on grid `e` round an interval, where its mantissas have at most 62 bits.
pub fn narrowed(x: Interval, e: u32) -> Option<Interval>
    ensures { IsIfSmall result (narrow e (bounds_of x)) }
{
    keep(Interval {
        lo: down(x.lo, e),
        hi: up(x.hi, e),
    })
}

/// The interval with these ends, where both have at most 62 bits.
pub fn ends(lo: Option<Dyadic>, hi: Option<Dyadic>) -> Option<Interval>
    ensures { (x : model.Interval) → IsEnd lo x.lo → IsEnd hi x.hi → IsIfSmall result x }
{
    match lo {
        None => None,
        Some(lo) => match hi {
            None => None,
            Some(hi) => keep(Interval { lo, hi }),
        },
    }
}

/// What is kept, or that a number gets too long.
pub fn answer(kept: Option<Interval>) -> Result<Interval, Why>
    ensures { result ≡ answer_of kept }
{
    match kept {
        Some(g) => Ok(g),
        None => Err(Why::Beyond),
    }
}

/// The narrowest on grid `e` round what a formula comes to.
pub fn round_outward(x: Option<Interval>, e: u32) -> Result<Interval, Why>
    ensures { (s : Span) → FormsSpan x s → result ≡ narrowest e (span_bounds s) (λ g. inside s (span g)) }
{
    match x {
        Some(x) => answer(narrowed(x, e)),
        None => Err(Why::Beyond),
    }
}
