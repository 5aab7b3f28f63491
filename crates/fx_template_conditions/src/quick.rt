//! Products of short mantissas, taken away or bounded, in 64 bits.
//!
//! A great certificate takes a multiple of a template's coefficient away some hundred million times, and mantissas that
//! are read from a text are short. Then one product of 64 bits gives what the operations on dyadics give. What isn't
//! short, or has more places than what it is taken from and isn't zero, has no answer here, and goes their way.

ghost use Rattle.std.specs.Prelude.{◌≡◌, ◌≤◌, ◌^◌, pos, unsigned_abs, ◌*ℤ◌, ◌-ℤ◌, IfSome, IsTrue};
ghost use Rattle.fx_rational.specs.Dyadic.{Dyadic, difference_fits, dyadic_difference, dyadic_product, fits_128, product_fits};
ghost use Rattle.fx_template_conditions.specs.ShortTimes.{AreTimes, HasRoom};
ghost use Rattle.fx_rational.specs.Interval.{interval_product, interval_product_fits};

use fx_num::{Dyadic, Interval, greatest, least, mul_fits, short_two_to};

/// A mantissa in 64 bits.
fn short(d: Dyadic) -> Option<i64>
    ensures { IfSome result (λ m. m ≡ d.m) }
{
    i64::try_from(d.m).ok()
}

/// The product of short mantissas, which always fits.
fn product(a: i64, b: i64) -> Option<i128>
    ensures is { IfSome result (λ m. m ≡ a *ℤ b) }
    ensures fits { IfSome result (λ m. IsTrue (fits_128 (a *ℤ b))) }
{
    mul_fits(i128::from(a), i128::from(b))
}

/// `a * b`, of short mantissas and few places.
#[tactic(auto, unfolding(fx_rational::specs::Dyadic::product_fits, fx_rational::specs::Dyadic::dyadic_product))]
fn short_product(a: Dyadic, b: Dyadic) -> Option<Dyadic>
    ensures fits { IfSome result (λ d. IsTrue (product_fits a b)) }
    ensures is { IfSome result (λ d. d ≡ dyadic_product a b) }
{
    if 512 < a.e || 512 < b.e {
        return None;
    }
    let m = product(short(a)?, short(b)?)?;
    Some(Dyadic::new(m, a.e + b.e))
}

/// A number in 64 bits, and by how many places it can be raised within 2^62. It is made once for all coefficients of a
/// template.
#[derive(Clone, Copy)]
pub struct ShortTimes {
    mantissa: i64,
    exponent: u32,
    room: u32,
}

/// The number in 64 bits, where it is within 2^62.
pub fn short_times(a: Dyadic) -> Option<ShortTimes>
    ensures room { IfSome result HasRoom }
    ensures is { IfSome result (λ t. AreTimes t a) }
{
    let mantissa = short(a)?;
    let zeros = mantissa.unsigned_abs().leading_zeros();
    if zeros < 2 {
        return None;
    }
    Some(ShortTimes {
        mantissa,
        exponent: a.e,
        room: zeros - 2,
    })
}

/// Its mantissa times `2^places`, where there is room.
fn raised(times: ShortTimes, places: u32) -> Option<i64>
    requires { HasRoom times }
    ensures is { IfSome result (λ x. x ≡ times.mantissa *ℤ pos (2 ^ places)) }
    ensures near { IfSome result (λ x. unsigned_abs x ≤ 2 ^ 62) }
{
    if times.room < places {
        return None;
    }
    Some(times.mantissa * short_two_to(places))
}

const FAR: i128 = 1i128 << 126;

/// The product with a short mantissa.
fn multiple(factor: i64, b: Dyadic) -> Option<i128>
    requires near { unsigned_abs factor ≤ 2 ^ 62 }
    ensures is { IfSome result (λ x. x ≡ factor *ℤ b.m) }
    ensures small { IfSome result (λ x. unsigned_abs b.m ≤ 2 ^ 64) }
    ensures near { IfSome result (λ x. unsigned_abs x ≤ 2 ^ 126) }
{
    Some(i128::from(factor) * i128::from(short(b)?))
}

/// The mantissa of `left`, where that is within 2^126, less another.
fn near_rest(left: Dyadic, taken: i128) -> Option<i128>
    requires { unsigned_abs taken ≤ 2 ^ 126 }
    ensures { IfSome result (λ x. x ≡ left.m -ℤ taken) }
{
    if left.m < -FAR || FAR <= left.m {
        return None;
    }
    Some(left.m - taken)
}

/// `left` less any multiple of `b`, where `b` is zero: nothing is taken away.
fn less_nothing(left: Dyadic, b: Dyadic) -> Option<Dyadic>
    ensures product { (a : Dyadic) → IfSome result (λ d. IsTrue (product_fits a b)) }
    ensures difference { (a : Dyadic) → IfSome result (λ d. IsTrue (difference_fits left (dyadic_product a b))) }
    ensures is { (a : Dyadic) → IfSome result (λ d. d ≡ dyadic_difference left (dyadic_product a b)) }
{
    if b.m != 0 {
        return None;
    }
    left.keeps();
    Some(Dyadic::new(left.m, left.e))
}

/// `left - a * b`, where `a` stays short at the exponent at which the product is taken away, so that one product is
/// all, or where nothing is taken away.
pub fn less_raised(left: Dyadic, times: ShortTimes, b: Dyadic) -> Option<Dyadic>
    requires { HasRoom times }
    ensures product { (a : Dyadic) → AreTimes times a → IfSome result (λ d. IsTrue (product_fits a b)) }
    ensures difference { (a : Dyadic) → AreTimes times a →
        IfSome result (λ d. IsTrue (difference_fits left (dyadic_product a b))) }
    ensures is { (a : Dyadic) → AreTimes times a →
        IfSome result (λ d. d ≡ dyadic_difference left (dyadic_product a b)) }
{
    let places = times.exponent + b.e;
    if left.e < places {
        return less_nothing(left, b);
    }
    let factor = raised(times, left.e - places)?;
    let taken = multiple(factor, b)?;
    left.keeps();
    let m = near_rest(left, taken)?;
    Some(Dyadic::new(m, left.e))
}

/// An interval times `a`, where its ends and `a` are short.
pub fn times_ends(a: Dyadic, ends: Interval) -> Option<Interval>
    ensures fits { IfSome result (λ i. IsTrue (interval_product_fits (record { lo = a; hi = a }) ends)) }
    ensures is { IfSome result (λ i. i ≡ interval_product (record { lo = a; hi = a }) ends) }
{
    let low = short_product(a, ends.lo)?;
    let high = short_product(a, ends.hi)?;
    Some(Interval {
        lo: least(low, high),
        hi: greatest(low, high),
    })
}
