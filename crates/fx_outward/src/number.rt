//! Quotients of whole numbers on a grid.

ghost use Rattle.std.specs.Prelude.{◌≡◌, ◌*◌, ◌^◌, ◌<◌, ◌≤◌, ◌*ℤ◌, neg_ℤ, pos, unsigned_abs};
ghost use Rattle.fx_rational.specs.Rational.{bottom, floor_div, ceil_div};
ghost use Rattle.fx_outward.specs.Grid.{lowest_dyadic, grid_down, grid_up};

use crate::grid::trim;
use fx_fraction::Fraction;
use fx_num::Dyadic;

/// The numerator.
pub fn numerator(c: Fraction) -> i128
    ensures value { result ≡ c.top }
    ensures small { unsigned_abs result < 2 ^ 62 }
{
    c.p
}

/// The denominator.
pub fn denominator(c: Fraction) -> u64
    ensures value { result ≡ bottom c }
    ensures some { 0 < result }
    ensures small { result < 2 ^ 62 }
{
    c.q as u64
}

/// `p * 2^s`.
pub fn left(p: i128, s: u32) -> i128
    requires small { unsigned_abs p < 2 ^ 62 }
    requires few { s ≤ 64 }
    ensures value { result ≡ p *ℤ pos (2 ^ s) }
    ensures small { unsigned_abs result < 2 ^ 126 }
{
    p << s
}

/// The other sign.
pub fn negate(n: i128) -> i128
    requires { unsigned_abs n < 2 ^ 127 }
    ensures { result ≡ neg_ℤ n }
{
    -n
}

/// The floor of `n / d`.
pub fn whole(n: i128, d: u128) -> i128
    requires some { 0 < d }
    requires few { d < 2 ^ 127 }
    ensures { result ≡ floor_div n d }
{
    n.div_euclid(d as i128)
}

/// The ceiling of `n / d`.
fn ceil_quotient(n: i128, d: u128) -> i128
    requires some { 0 < d }
    requires few { d < 2 ^ 127 }
    requires small { unsigned_abs n < 2 ^ 126 }
    ensures { result ≡ ceil_div n d }
{
    let m = negate(n);
    let q = whole(m, d);
    negate(q)
}

/// The floor of `n / d`, in units of `2^-e`.
pub fn down_quotient(n: i128, d: u128, e: u32) -> Dyadic
    requires some { 0 < d }
    requires few { d < 2 ^ 127 }
    requires places { e ≤ 2 ^ 20 }
    ensures { result ≡ lowest_dyadic (floor_div n d) e }
{
    let q = whole(n, d);
    trim(q, e)
}

/// The ceiling of `n / d`, in units of `2^-e`.
pub fn up_quotient(n: i128, d: u128, e: u32) -> Dyadic
    requires some { 0 < d }
    requires few { d < 2 ^ 127 }
    requires small { unsigned_abs n < 2 ^ 126 }
    requires places { e ≤ 2 ^ 20 }
    ensures { result ≡ lowest_dyadic (ceil_div n d) e }
{
    let q = ceil_quotient(n, d);
    trim(q, e)
}

/// The greatest of grid `e` that isn't above a fraction.
pub fn down_fraction(c: Fraction, e: u32) -> Dyadic
    requires { e ≤ 64 }
    ensures { result ≡ grid_down e c }
{
    let p = numerator(c);
    let n = left(p, e);
    let q = denominator(c);
    down_quotient(n, u128::from(q), e)
}

/// The least of grid `e` that isn't below a fraction.
pub fn up_fraction(c: Fraction, e: u32) -> Dyadic
    requires { e ≤ 64 }
    ensures { result ≡ grid_up e c }
{
    let p = numerator(c);
    let n = left(p, e);
    let q = denominator(c);
    up_quotient(n, u128::from(q), e)
}
