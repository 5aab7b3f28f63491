//! Quotients of dyadics on the grid of an error, less a unit of its point.
//!
//! A quotient is `n * 2^p` over `d * 2^c`. Its floor can pass 128 bits and still have few in lowest terms, so its whole
//! part and its binary places are kept apart; once the whole part passes 66 bits, the end has more than 62, whatever
//! its places.

ghost use Rattle.std.specs.Prelude.{◌≡◌, ◌+◌, ◌-◌, ◌*◌, ◌<◌, ◌≤◌, ◌^◌, ◌*ℤ◌, ◌+ℤ◌, ◌-ℤ◌, pos, ltb, unsigned_abs, ℤ};
ghost use Rattle.fx_rational.specs.Rational.{floor_div};
ghost use Rattle.fx_model.specs.LawfulProgram.{IsPoint};
ghost use Rattle.fx_outward.specs.Grid.{lowest_dyadic, error_grid};
ghost use Rattle.fx_outward.specs.Wide.{IsEnd, units_below};

use crate::number::whole;
use crate::place::{Place, grid, split};
use crate::wide::{assembled, places, rest};
use fx_num::{Dyadic, floor_shift, signed_two_to, two_to};

/// Whether it has at most 66 bits.
fn is_near(w: i128) -> bool
    ensures { result ≡ ltb (unsigned_abs w) (2 ^ 66) }
{
    w.unsigned_abs() < 1 << 66
}

/// A whole part less `2^s`.
fn less_power(w: i128, s: u32) -> i128
    requires near { unsigned_abs w < 2 ^ 66 }
    requires few { s ≤ 64 }
    ensures { result ≡ w -ℤ pos (2 ^ s) }
{
    w - signed_two_to(s)
}

/// `w + f / 2^(k + 8)` less `2^-k`, on the grid of point `k`.
fn less_high(w: i128, f: u128, k: u32) -> Option<Dyadic>
    requires near { unsigned_abs w < 2 ^ 66 }
    requires point { k ≤ 62 }
    requires places { f < 2 ^ (k + 8) }
    ensures { IsEnd result (lowest_dyadic ((w *ℤ pos (2 ^ (k + 8)) +ℤ pos f) -ℤ pos (2 ^ 8)) (k + 8)) }
{
    let e = k + 8;
    if f >= 256 {
        return assembled(w, f - 256, e, e);
    }
    let more = two_to(e) - 256;
    assembled(less_power(w, 0), f + more, e, e)
}

/// `w + f / 2^e` less `2^(k + 1)`.
fn less_low(w: i128, f: u128, k: u32, e: u32) -> Option<Dyadic>
    requires near { unsigned_abs w < 2 ^ 66 }
    requires point { k ≤ 63 }
    requires grid { e ≤ 7 }
    requires places { f < 2 ^ e }
    ensures { IsEnd result (lowest_dyadic ((w *ℤ pos (2 ^ e) +ℤ pos f) -ℤ pos (2 ^ (k + 1) * 2 ^ e)) e) }
{
    let v = less_power(w, k + 1);
    assembled(v, f, e, e)
}

/// `w + f / 2^e` less a unit of the point, on its grid.
fn less_unit(w: i128, f: u128, point: i32) -> Option<Dyadic>
    requires point { IsPoint point }
    requires places { f < 2 ^ error_grid point }
    ensures { IsEnd result (lowest_dyadic ((w *ℤ pos (2 ^ error_grid point) +ℤ pos f) -ℤ pos (units_below point))
        (error_grid point)) }
{
    if !is_near(w) {
        return None;
    }
    match split(point) {
        Place::High(k) => less_high(w, f, k),
        Place::Low(k) => less_low(w, f, k, 7u32.saturating_sub(k)),
    }
}

/// Twice a whole part.
fn twice(w: i128) -> i128
    requires { unsigned_abs w < 2 ^ 66 }
    ensures value { result ≡ w +ℤ w }
    ensures few { unsigned_abs result ≤ 2 ^ 67 }
{
    w + w
}

/// Twice a whole part and one more.
fn twice_more(w: i128) -> i128
    requires { unsigned_abs w < 2 ^ 66 }
    ensures { result ≡ (w +ℤ w) +ℤ pos 1 }
{
    twice(w) + 1
}

/// Of `(w * d + r) * 2^t / d`, the greatest on the grid that isn't above it, less a unit.
fn raised(w: i128, r: u128, d: u128, t: u32, point: i32) -> Option<Dyadic>
    requires point { IsPoint point }
    requires rest { r < d }
    requires few { d < 2 ^ 127 }
    ensures { (v : ℤ) → v ≡ w *ℤ pos d +ℤ pos r →
        IsEnd result (lowest_dyadic
        (floor_div ((v *ℤ pos (2 ^ t)) *ℤ pos (2 ^ error_grid point)) d -ℤ pos (units_below point))
        (error_grid point)) }
{
    if !is_near(w) {
        return None;
    }
    if t == 0 {
        let e = grid(point);
        return less_unit(w, places(r, d, e), point);
    }
    let left = r + r;
    if left >= d {
        return raised(twice_more(w), left - d, d, t - 1, point);
    }
    raised(twice(w), left, d, t - 1, point)
}

/// What a shift to the right leaves.
fn low_places(m: i128, s: u32) -> u128
    requires { s ≤ 126 }
    ensures value { pos result ≡ m -ℤ floor_div m (2 ^ s) *ℤ pos (2 ^ s) }
    ensures few { result < 2 ^ s }
{
    rest(m, two_to(s))
}

/// Places before others.
fn joined(high: u128, low: u128, s: u32, e: u32) -> u128
    requires high { high < 2 ^ (e - s) }
    requires low { low < 2 ^ s }
    requires fits { s ≤ e }
    requires few { e ≤ 126 }
    ensures value { result ≡ high * 2 ^ s + low }
    ensures few { result < 2 ^ e }
{
    high * two_to(s) + low
}

/// Of `n / (d * 2^j)`, the greatest on the grid that isn't above it, less a unit.
fn lowered(n: i128, d: u128, j: u32, point: i32) -> Option<Dyadic>
    requires point { IsPoint point }
    requires some { 0 < d }
    requires few { d < 2 ^ 127 }
    requires within { j ≤ error_grid point }
    ensures { IsEnd result (lowest_dyadic
        (floor_div (n *ℤ pos (2 ^ error_grid point)) (d * 2 ^ j) -ℤ pos (units_below point)) (error_grid point)) }
{
    let e = grid(point);
    let m = whole(n, d);
    let r = rest(n, d);
    let f = places(r, d, e - j);
    let w = floor_shift(m, j);
    let l = low_places(m, j);
    less_unit(w, joined(l, f, e - j, e), point)
}

/// Of `n / (d * 2^(i + e))`, the greatest on grid `e` that isn't above it, less a unit.
fn shifted(n: i128, d: u128, i: u32, point: i32) -> Option<Dyadic>
    requires point { IsPoint point }
    requires some { 0 < d }
    requires few { d < 2 ^ 127 }
    ensures { IsEnd result (lowest_dyadic
        (floor_div (n *ℤ pos (2 ^ error_grid point)) (d * 2 ^ (i + error_grid point)) -ℤ pos (units_below point))
        (error_grid point)) }
{
    let e = grid(point);
    let m = floor_shift(whole(n, d), i);
    let w = floor_shift(m, e);
    less_unit(w, low_places(m, e), point)
}

/// Of `n * 2^p / (d * 2^c)`, the greatest on the grid that isn't above it, less a unit.
pub fn quotient_less(n: i128, p: u32, d: u128, c: u32, point: i32) -> Option<Dyadic>
    requires point { IsPoint point }
    requires some { 0 < d }
    requires few { d < 2 ^ 127 }
    ensures { IsEnd result (lowest_dyadic
        (floor_div ((n *ℤ pos (2 ^ p)) *ℤ pos (2 ^ error_grid point)) (d * 2 ^ c) -ℤ pos (units_below point))
        (error_grid point)) }
{
    if p >= c {
        return raised(whole(n, d), rest(n, d), d, p - c, point);
    }
    let j = c - p;
    let e = grid(point);
    if j <= e {
        return lowered(n, d, j, point);
    }
    shifted(n, d, j - e, point)
}
