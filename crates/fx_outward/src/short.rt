//! Sums and products of intervals.
//!
//! Where mantissas have at most 62 bits, as those of plain ranges and errors do, nothing can leave 128 bits, and no
//! operation is tested for it. Longer ones are left to `fx_formulas`.

ghost use Rattle.std.specs.Prelude.{◌≡◌, ◌+◌, ◌≤◌, ◌<◌, ◌^◌, ◌+ℤ◌, ◌*ℤ◌, unsigned_abs, true};
ghost use Rattle.fx_rational.specs.Dyadic.{dyadic_sum, dyadic_product};
ghost use Rattle.fx_rational.specs.Interval.{interval_sum, interval_product};
ghost use Rattle.fx_inequalities.specs.Formula.{Span, span_sum, span_product};
ghost use Rattle.fx_formulas.specs.Judging.{FormsSpan};
ghost use Rattle.fx_formulas.specs.Places.{IsShortSpan};
ghost use Rattle.fx_outward.specs.Grid.{is_small};
ghost use Rattle.fx_outward.specs.Short.{has_short_ends, is_near, has_few_places, has_short_sum, has_short_product};

use crate::grid::is_small;
use crate::number::left;
use fx_num::{Dyadic, Interval, greatest, least};

/// Whether both ends have mantissas of at most 62 bits.
fn has_short_ends(x: Interval) -> bool
    ensures { result ≡ has_short_ends x }
{
    is_small(x.lo) && is_small(x.hi)
}

/// Whether one mantissa is shifted by at most 64 places to be added to the other.
fn is_near(a: Dyadic, b: Dyadic) -> bool
    ensures { result ≡ is_near a b }
{
    a.e <= b.e + 64 && b.e <= a.e + 64
}

/// Whether no mantissa of the sum of two intervals can leave 128 bits.
fn has_short_sum(x: Interval, y: Interval) -> bool
    ensures { result ≡ has_short_sum x y }
{
    has_short_ends(x) && has_short_ends(y) && is_near(x.lo, y.lo) && is_near(x.hi, y.hi)
}

/// Whether both ends have so few binary places that a product's are few enough.
fn has_few_places(x: Interval) -> bool
    ensures { result ≡ has_few_places x }
{
    x.lo.e <= 512 && x.hi.e <= 512
}

/// Whether no mantissa of the product of two intervals can leave 128 bits.
fn has_short_product(x: Interval, y: Interval) -> bool
    ensures { result ≡ has_short_product x y }
{
    has_short_ends(x) && has_short_ends(y) && has_few_places(x) && has_few_places(y)
}

/// The sum of two mantissas.
fn add(m: i128, n: i128) -> i128
    requires m { unsigned_abs m < 2 ^ 126 }
    requires n { unsigned_abs n < 2 ^ 126 }
    ensures { result ≡ m +ℤ n }
{
    m + n
}

/// The product of two mantissas.
fn multiply(m: i128, n: i128) -> i128
    requires m { unsigned_abs m < 2 ^ 62 }
    requires n { unsigned_abs n < 2 ^ 62 }
    ensures { result ≡ m *ℤ n }
{
    m * n
}

/// The sum of two dyadics.
#[tactic(auto, unfolding(fx_rational::specs::Dyadic::dyadic_sum))]
fn short_sum(a: Dyadic, b: Dyadic) -> Dyadic
    requires a { is_small a ≡ true }
    requires b { is_small b ≡ true }
    requires near { is_near a b ≡ true }
    ensures { result ≡ dyadic_sum a b }
{
    let e = a.e.max(b.e);
    let m = left(a.m, e - a.e);
    let n = left(b.m, e - b.e);
    Dyadic::new(add(m, n), e)
}

/// The product of two dyadics.
#[tactic(auto, unfolding(fx_rational::specs::Dyadic::dyadic_product))]
fn short_product(a: Dyadic, b: Dyadic) -> Dyadic
    requires a { is_small a ≡ true }
    requires b { is_small b ≡ true }
    requires a_places { a.e ≤ 512 }
    requires b_places { b.e ≤ 512 }
    ensures { result ≡ dyadic_product a b }
{
    Dyadic::new(multiply(a.m, b.m), a.e + b.e)
}

/// The sum of two intervals.
#[tactic(auto, unfolding(fx_rational::specs::Interval::interval_sum))]
fn short_interval_sum(x: Interval, y: Interval) -> Interval
    requires { has_short_sum x y ≡ true }
    ensures { result ≡ interval_sum x y }
{
    Interval {
        lo: short_sum(x.lo, y.lo),
        hi: short_sum(x.hi, y.hi),
    }
}

/// The product of two intervals.
#[tactic(auto, unfolding(fx_rational::specs::Interval::interval_product))]
fn short_interval_product(x: Interval, y: Interval) -> Interval
    requires { has_short_product x y ≡ true }
    ensures { result ≡ interval_product x y }
{
    let ll = short_product(x.lo, y.lo);
    let lh = short_product(x.lo, y.hi);
    let hl = short_product(x.hi, y.lo);
    let hh = short_product(x.hi, y.hi);
    Interval {
        lo: least(least(ll, lh), least(hl, hh)),
        hi: greatest(greatest(ll, lh), greatest(hl, hh)),
    }
}

/// The ends are added.
pub fn plus(a: Option<Interval>, b: Option<Interval>) -> Option<Interval>
    ensures { (s t : Span) → FormsSpan a s → FormsSpan b t → FormsSpan result (span_sum s t) }
{
    if let Some(x) = a {
        if let Some(y) = b {
            if has_short_sum(x, y) {
                return Some(short_interval_sum(x, y));
            }
        }
    }
    fx_formulas::plus(a, b)
}

/// From the least to the greatest of the four products of ends, of at most 512 binary places each.
pub fn times(a: Option<Interval>, b: Option<Interval>) -> Option<Interval>
    ensures { (s t : Span) → IsShortSpan 512 s → IsShortSpan 512 t → FormsSpan a s → FormsSpan b t →
        FormsSpan result (span_product s t) }
{
    if let Some(x) = a {
        if let Some(y) = b {
            if has_short_product(x, y) {
                return Some(short_interval_product(x, y));
            }
        }
    }
    fx_formulas::times(a, b)
}
