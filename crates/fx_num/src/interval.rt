//! Intervals with dyadic ends, and their exact operations.
//!
//! An operation holds the operation of any two members, and its ends are the very sums and products of ends, so that
//! the mantissas' limits decide None and nothing is rounded but by `outward`.
//! The trap: an interval whose lo is above its hi holds nothing, and is not refused.

ghost use Rattle.std.specs.Prelude.{◌≡◌, ◌+◌, ◌≤◌, ◌^◌, IsTrue};
ghost use Rattle.std.specs.Option.{SomeIff};
ghost use Rattle.fx_rational.specs.Dyadic.{zero_dyadic, fits_128, least, greatest};
ghost use Rattle.fx_rational.specs.Interval.{interval_sum, interval_sum_fits, interval_difference, interval_difference_fits, interval_product, interval_product_fits, is_inside, outward_to};

use crate::{Dyadic, dadd, dle, dmul, dsub, round_down, round_up};
use std::marker::Model;

/// The numbers from `lo` to `hi`.
#[derive(Clone, Copy, Debug, PartialEq, Eq)]
pub struct Interval {
    /// The lower end.
    pub lo: Dyadic,
    /// The upper end.
    pub hi: Dyadic,
}

impl Model for Interval {
    ghost use Rattle.fx_rational.specs.Interval as model;

    ghost Value = { model.Interval };

    ghost view = { λ i. record { lo = i.lo; hi = i.hi } };

    ghost inverse = { λ i. record { lo = i.lo; hi = i.hi } };
}

impl Interval {
    /// Zero alone.
    pub fn zero() -> Interval
        ensures { result ≡ record { lo = zero_dyadic; hi = zero_dyadic } }
    {
        Interval {
            lo: Dyadic::zero(),
            hi: Dyadic::zero(),
        }
    }

    /// What each interval keeps: ends whose mantissas have 128 bits.
    pub fn keeps(&self)
        ensures lo { IsTrue (fits_128 self.now.lo.m) }
        ensures hi { IsTrue (fits_128 self.now.hi.m) }
    {
        self.lo.keeps();
        self.hi.keeps();
    }
}

/// `[a.lo + b.lo, a.hi + b.hi]`. None where `dadd` has none.
#[tactic(auto, unfolding(fx_rational::specs::Interval::interval_sum, fx_rational::specs::Interval::interval_sum_fits))]
pub fn iadd(a: Interval, b: Interval) -> Option<Interval>
    ensures { SomeIff result (IsTrue (interval_sum_fits a b)) (interval_sum a b) }
{
    let lo = dadd(a.lo, b.lo)?;
    let hi = dadd(a.hi, b.hi)?;
    Some(Interval { lo, hi })
}

/// `[a.lo - b.hi, a.hi - b.lo]`. None where `dsub` has none.
#[tactic(auto, unfolding(fx_rational::specs::Interval::interval_difference, fx_rational::specs::Interval::interval_difference_fits))]
pub fn isub(a: Interval, b: Interval) -> Option<Interval>
    ensures { SomeIff result (IsTrue (interval_difference_fits a b)) (interval_difference a b) }
{
    let lo = dsub(a.lo, b.hi)?;
    let hi = dsub(a.hi, b.lo)?;
    Some(Interval { lo, hi })
}

/// The lesser number, or `a` where they are equal.
#[tactic(auto, unfolding(fx_rational::specs::Dyadic::least))]
pub fn least(a: Dyadic, b: Dyadic) -> Dyadic
    ensures { result ≡ least a b }
{
    if dle(a, b) { a } else { b }
}

/// The greater number, or `a` where they are equal.
#[tactic(auto, unfolding(fx_rational::specs::Dyadic::greatest))]
pub fn greatest(a: Dyadic, b: Dyadic) -> Dyadic
    ensures { result ≡ greatest a b }
{
    if dle(b, a) { a } else { b }
}

/// From the least to the greatest of the products of ends in the order lo lo, lo hi, hi lo, hi hi, of equal ones the
/// first. None where `dmul` has none.
#[tactic(auto, unfolding(fx_rational::specs::Interval::interval_product, fx_rational::specs::Interval::interval_product_fits))]
pub fn imul(a: Interval, b: Interval) -> Option<Interval>
    requires lo_lo { a.lo.e + b.lo.e ≤ 2 ^ 20 }
    requires lo_hi { a.lo.e + b.hi.e ≤ 2 ^ 20 }
    requires hi_lo { a.hi.e + b.lo.e ≤ 2 ^ 20 }
    requires hi_hi { a.hi.e + b.hi.e ≤ 2 ^ 20 }
    ensures { SomeIff result (IsTrue (interval_product_fits a b)) (interval_product a b) }
{
    let ll = dmul(a.lo, b.lo)?;
    let lh = dmul(a.lo, b.hi)?;
    let hl = dmul(a.hi, b.lo)?;
    let hh = dmul(a.hi, b.hi)?;
    Some(Interval {
        lo: least(least(ll, lh), least(hl, hh)),
        hi: greatest(greatest(ll, lh), greatest(hl, hh)),
    })
}

/// Whether `a` lies in `b`: `b.lo <= a.lo` and `a.hi <= b.hi`.
#[tactic(auto, unfolding(fx_rational::specs::Interval::is_inside))]
pub fn inside(a: Interval, b: Interval) -> bool
    ensures { result ≡ is_inside a b }
{
    dle(b.lo, a.lo) && dle(a.hi, b.hi)
}

/// The narrowest interval round `a` whose ends have exponents of at most `e`.
#[tactic(auto, unfolding(fx_rational::specs::Interval::outward_to))]
pub fn outward(a: Interval, e: u32) -> Interval
    ensures { result ≡ outward_to a e }
{
    Interval {
        lo: round_down(a.lo, e),
        hi: round_up(a.hi, e),
    }
}
