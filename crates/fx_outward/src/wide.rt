//! Quotients on a grid whose numerator may have more than 128 bits.
//!
//! The whole part and the binary places are kept apart: places that are zero at the end are dropped before both are put
//! together, so that what doesn't fit then has more than 62 bits in lowest terms. Such an end is None here.

ghost use Rattle.std.specs.Prelude.{◌≡◌, ◌+◌, ◌*◌, ◌/◌, ◌<◌, ◌≤◌, ◌^◌, ◌*ℤ◌, ◌+ℤ◌, ◌-ℤ◌, neg_ℤ, pos, unsigned_abs, true};
ghost use Rattle.fx_rational.specs.Rational.{floor_div, ceil_div};
ghost use Rattle.fx_rational.specs.Dyadic as model;
ghost use Rattle.fx_outward.specs.Grid.{lowest_dyadic, is_small};
ghost use Rattle.fx_outward.specs.Wide.{IsEnd};

use crate::grid::{is_small, trim};
use crate::number::{negate, whole};
use fx_num::{Dyadic, add_fits, left_fits};

/// The first `s` binary places of `r / d`.
pub fn places(r: u128, d: u128, s: u32) -> u128
    requires less { r < d }
    requires few { d < 2 ^ 127 }
    requires places { s ≤ 126 }
    ensures value { result ≡ r * 2 ^ s / d }
    ensures small { result < 2 ^ s }
{
    // nearly always they come by one division
    if r <= u128::MAX >> s {
        return (r << s) / d;
    }
    let mut left = r;
    let mut f: u128 = 0;
    for i in 0..s {
        let t = left + left;
        if t >= d {
            f = f + f + 1;
            left = t - d;
        } else {
            f = f + f;
            left = t;
        }
    }
    f
}

/// A number without sign as one with a sign.
pub fn signed(f: u128) -> i128
    requires { f < 2 ^ 127 }
    ensures { result ≡ pos f }
{
    f as i128
}

/// `w * 2^s + f` over `2^e` in lowest terms, where that has at most 62 bits.
pub fn assembled(w: i128, f: u128, s: u32, e: u32) -> Option<Dyadic>
    requires places { f < 2 ^ s }
    requires few { s ≤ 126 }
    requires grid { s ≤ e }
    requires low { e ≤ 2 ^ 20 }
    ensures { IsEnd result (lowest_dyadic (w *ℤ pos (2 ^ s) +ℤ pos f) e) }
{
    let t = f.trailing_zeros().min(s);
    if t == s {
        return Some(trim(w, e - s));
    }
    match left_fits(w, s - t) {
        None => None,
        Some(m) => match add_fits(m, signed(f >> t)) {
            None => None,
            Some(n) => Some(Dyadic::new(n, e - t)),
        },
    }
}

/// What the floor leaves.
pub fn rest(n: i128, d: u128) -> u128
    requires some { 0 < d }
    requires few { d < 2 ^ 127 }
    ensures { pos result ≡ n -ℤ floor_div n d *ℤ pos d }
{
    n.rem_euclid(d as i128) as u128
}

/// The floor of `n * 2^e / d` over `2^e` in lowest terms, where that has at most 62 bits.
pub fn wide_down(n: i128, d: u128, e: u32) -> Option<Dyadic>
    requires some { 0 < d }
    requires few { d < 2 ^ 127 }
    requires places { e ≤ 126 }
    ensures { IsEnd result (lowest_dyadic (floor_div (n *ℤ pos (2 ^ e)) d) e) }
{
    let w = whole(n, d);
    let r = rest(n, d);
    let f = places(r, d, e);
    assembled(w, f, e, e)
}

/// The other sign.
fn negated(d: Dyadic) -> Dyadic
    requires { is_small d ≡ true }
    ensures { result ≡ record { m = neg_ℤ d.m; e = d.e } }
{
    Dyadic { m: -d.m, e: d.e }
}

/// The end with the other sign.
pub fn opposite(x: Option<Dyadic>) -> Option<Dyadic>
    ensures { (d : model.Dyadic) → IsEnd x d → IsEnd result (record { m = neg_ℤ d.m; e = d.e }) }
{
    match x {
        None => None,
        Some(x) => { if is_small(x) { Some(negated(x)) } else { None } }
    }
}

/// The ceiling of `n * 2^e / d` over `2^e` in lowest terms, where that has at most 62 bits.
pub fn wide_up(n: i128, d: u128, e: u32) -> Option<Dyadic>
    requires some { 0 < d }
    requires few { d < 2 ^ 127 }
    requires places { e ≤ 126 }
    requires small { unsigned_abs n < 2 ^ 127 }
    ensures { IsEnd result (lowest_dyadic (ceil_div (n *ℤ pos (2 ^ e)) d) e) }
{
    let m = negate(n);
    opposite(wide_down(m, d, e))
}
