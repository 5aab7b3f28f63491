//! Ends on a grid, in lowest terms.

ghost use Rattle.std.specs.Int.{w128, trailing_zeros};
ghost use Rattle.std.specs.Prelude.{◌≡◌, ◌^◌, ◌≤◌, ◌<◌, unsigned_abs};
ghost use Rattle.fx_rational.specs.Dyadic.{dyadic_value};
ghost use Rattle.fx_outward.specs.Grid.{lowest_dyadic, grid_down, grid_up, is_small};

use fx_num::{Dyadic, floor_shift, round_down, round_up};

/// The mantissa.
pub fn mantissa(d: Dyadic) -> i128
    ensures { result ≡ d.m }
{
    d.m
}

/// How many binary places there are.
pub fn exponent(d: Dyadic) -> u32
    ensures value { result ≡ d.e }
    ensures small { result ≤ 2 ^ 20 }
{
    d.e
}

/// How often it can be halved.
fn halvings(m: i128) -> u32
    ensures { result ≡ trailing_zeros w128 (unsigned_abs m) }
{
    m.unsigned_abs().trailing_zeros()
}

/// `m / 2^e` in lowest terms.
pub fn trim(m: i128, e: u32) -> Dyadic
    requires { e ≤ 2 ^ 20 }
    ensures { result ≡ lowest_dyadic m e }
{
    let s = halvings(m).min(e);
    Dyadic::new(floor_shift(m, s), e - s)
}

/// The greatest of grid `e` that isn't above `d`.
pub fn down(d: Dyadic, e: u32) -> Dyadic
    ensures { result ≡ grid_down e (dyadic_value d) }
{
    let r = round_down(d, e);
    trim(mantissa(r), exponent(r))
}

/// The least of grid `e` that isn't below `d`.
pub fn up(d: Dyadic, e: u32) -> Dyadic
    ensures { result ≡ grid_up e (dyadic_value d) }
{
    let r = round_up(d, e);
    trim(mantissa(r), exponent(r))
}

/// Whether its mantissa has at most 62 bits.
pub fn is_small(d: Dyadic) -> bool
    ensures { result ≡ is_small d }
{
    d.m.unsigned_abs() < 1 << 62
}
