//! Products of what formulas come to, as `fx_formulas` has them, but of all exponents that a product of dyadics may
//! have.
//!
//! The formulas promise that exponents are near enough; the numbers at hand are tested, so that no call asks it of
//! them.

ghost use Rattle.std.specs.Prelude.{◌≡◌, nat_le, ◌+◌, ◌^◌, ◌≤◌, IsTrue};
ghost use Rattle.std.specs.Option.{SomeIff};
ghost use Rattle.fx_rational.specs.Dyadic.{dyadic_product, product_fits};
ghost use Rattle.fx_rational.specs.Interval.{interval_product, interval_product_fits};
ghost use Rattle.fx_inequalities.specs.Formula.{Formula, Num, Product, Span, point, span, span_difference, span_product};
ghost use Rattle.fx_inequalities.specs.OperationSpans.{product_rest};
ghost use Rattle.fx_formulas.specs.Judging.{Forms, FormsSpan};
ghost use Rattle.fx_template.specs.Combining.{HasNearProducts, HasNearSpan};

use fx_formulas::{interval, minus, number, plus, point};
use fx_num::{Dyadic, Interval, dmul, imul};

/// Whether the exponent of a product is one that a dyadic can have.
fn is_near(x: Dyadic, y: Dyadic) -> bool
    ensures { result ≡ nat_le (x.e + y.e) (2 ^ 20) }
{
    x.e + y.e <= 1 << 20
}

/// The product of two dyadics that are near enough.
fn near_product(x: Dyadic, y: Dyadic) -> Option<Dyadic>
    ensures { x.e + y.e ≤ 2 ^ 20 → SomeIff result (IsTrue (product_fits x y)) (dyadic_product x y) }
{
    if is_near(x, y) { dmul(x, y) } else { None }
}

/// The product of two numbers.
pub fn product(a: Option<Dyadic>, b: Option<Dyadic>) -> Option<Dyadic>
    ensures { (f g : Formula) → HasNearProducts (Product f g) → Forms a f → Forms b g → Forms result (Product f g) }
{
    match a {
        Some(x) => match b {
            Some(y) => near_product(x, y),
            None => None,
        },
        None => None,
    }
}

/// The product of two intervals whose ends are near enough.
fn near_times(x: Interval, y: Interval) -> Option<Interval>
    ensures { x.lo.e + y.lo.e ≤ 2 ^ 20 → x.lo.e + y.hi.e ≤ 2 ^ 20 → x.hi.e + y.lo.e ≤ 2 ^ 20 →
        x.hi.e + y.hi.e ≤ 2 ^ 20 → SomeIff result (IsTrue (interval_product_fits x y)) (interval_product x y) }
{
    if is_near(x.lo, y.lo) && is_near(x.lo, y.hi) && is_near(x.hi, y.lo) && is_near(x.hi, y.hi) {
        imul(x, y)
    } else {
        None
    }
}

/// From the least to the greatest of the four products of ends.
pub fn times(a: Option<Interval>, b: Option<Interval>) -> Option<Interval>
    ensures { (s t : Span) → HasNearSpan (span_product s t) → FormsSpan a s → FormsSpan b t →
        FormsSpan result (span_product s t) }
{
    match a {
        Some(x) => match b {
            Some(y) => near_times(x, y),
            None => None,
        },
        None => None,
    }
}

/// A dyadic times an interval.
pub fn scaled(m: Dyadic, rest: Interval) -> Option<Interval>
    requires { HasNearSpan (span_product (point (Num m)) (span rest)) }
    ensures { FormsSpan result (span_product (point (Num m)) (span rest)) }
{
    times(point(number(m)), interval(rest))
}

/// A range less its centre.
fn centred(range: Interval, centre: Dyadic) -> Option<Interval>
    ensures { FormsSpan result (span_difference (span range) (point (Num centre))) }
{
    minus(interval(range), point(number(centre)))
}

/// The rest of a product.
pub fn product_rest(
    rests: (Interval, Interval),
    ranges: (Interval, Interval),
    centres: (Dyadic, Dyadic),
) -> Option<Interval>
    requires { HasNearSpan (product_rest (Num centres.0) (Num centres.1) (span ranges.0) (span ranges.1) (span rests.0)
        (span rests.1)) }
    ensures { FormsSpan result
        (product_rest (Num centres.0) (Num centres.1) (span ranges.0) (span ranges.1) (span rests.0) (span rests.1)) }
{
    let (ma, mb) = centres;
    let rests = plus(scaled(mb, rests.0), scaled(ma, rests.1));
    let less = minus(rests, point(product(number(ma), number(mb))));
    plus(less, times(centred(ranges.0, ma), centred(ranges.1, mb)))
}
