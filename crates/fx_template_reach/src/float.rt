//! Floating point for guesses: whole numbers and dyadics near a float, and turns by an angle.
//!
//! Only sums, products, quotients and square roots are used, which every machine rounds alike, so that what is proposed
//! doesn't depend on where it was worked out.

use crate::complex::Complex;
use fx_num::{Dyadic, bits, floor_shift, left_fits, lowest};
use std::num::{nearest_i64_to_f64, saturating_f64_to_i64};

/// Half of a whole turn.
pub const HALF_TURN: f64 = 3.141592653589793;

/// From here on a float is a whole number, and leaves 64 bits soon.
const GREATEST: f64 = 4611686018427387904.0;

/// A power of two, of an exponent from -1023 to 1023.
pub fn power_of_two(e: i32) -> f64 {
    let mut power = 1.0;
    let mut factor = if e < 0 { 0.5 } else { 2.0 };
    let mut left = e.unsigned_abs().min(1023);
    for _bit in 0..10 {
        if left & 1 == 1 {
            power = power * factor;
        }
        factor = factor * factor;
        left = left >> 1;
    }
    power
}

/// The size of a number.
pub fn size_of(x: f64) -> f64 {
    if x < 0.0 { -x } else { x }
}

/// The greater of two numbers.
pub fn greater_of(x: f64, y: f64) -> f64 {
    if x < y { y } else { x }
}

/// A float near a whole number.
pub fn to_float(m: i128) -> f64 {
    let over = bits(m.unsigned_abs()).saturating_sub(62);
    let top = i64::try_from(floor_shift(m, over)).unwrap_or(0);
    nearest_i64_to_f64(top) * power_of_two(i32::try_from(over).unwrap_or(0))
}

/// A float near a count.
pub fn count_to_float(count: usize) -> f64 {
    nearest_i64_to_f64(i64::try_from(count).unwrap_or(0))
}

/// The whole number that isn't above a float, of those with at most 62 bits.
pub fn whole_below(x: f64) -> i64 {
    let whole = saturating_f64_to_i64(x);
    if nearest_i64_to_f64(whole) > x {
        whole.saturating_sub(1)
    } else {
        whole
    }
}

/// The whole number nearest to `x * 2^places`. None where 128 bits don't hold it.
pub fn whole_near(x: f64, places: i32) -> Option<i128> {
    let mut y = x * power_of_two(places);
    let mut over: u32 = 0;
    for _step in 0..10 {
        if size_of(y) >= GREATEST {
            y = y * 0.00390625;
            over = over.saturating_add(8);
        }
    }
    if size_of(y) < GREATEST {
        left_fits(i128::from(whole_below(y + 0.5)), over)
    } else {
        None
    }
}

/// A dyadic near a float, with so many significant bits and at most so many places, of those below 2^60. None for what
/// is next to 0.
pub fn dyadic_near(x: f64, digits: u32, most: u32) -> Option<Dyadic> {
    let length = bits(whole_near(x, 60)?.unsigned_abs());
    if length == 0 {
        return None;
    }
    let e = digits.saturating_add(60).saturating_sub(length).min(most);
    let m = whole_near(x, i32::try_from(e).unwrap_or(0))?;
    if m == 0 { None } else { Some(lowest(m, e)) }
}

/// The turn by an angle of at most 4: a number of size 1.
pub fn turn_by(angle: f64) -> Complex {
    let mut total = Complex { re: 1.0, im: 0.0 };
    let mut term = total;
    let mut n = 1.0;
    for _step in 0..40 {
        term = Complex {
            re: -term.im * angle / n,
            im: term.re * angle / n,
        };
        total = total.plus(term);
        n = n + 1.0;
    }
    total
}

/// The angle of a number that isn't below the real axis.
pub fn angle_of(z: Complex) -> f64 {
    let size = z.size();
    if !(size > 0.0) {
        return 0.0;
    }
    let mut angle = (1.0 - z.re / size) * (HALF_TURN / 2.0);
    for _step in 0..12 {
        let turn = turn_by(angle);
        angle = angle + (z.im * turn.re - z.re * turn.im) / size;
    }
    angle
}
