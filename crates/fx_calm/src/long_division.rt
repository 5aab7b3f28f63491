//! The comparison, digit by digit.

ghost use Rattle.std.specs.Prelude.{int_le, min, ◌≡◌, ◌+◌, ◌*◌, ◌^◌, ◌<◌, ◌≤◌, ◌≤ℤ◌, ◌+ℤ◌, ◌-ℤ◌, ◌*ℤ◌, pos, negsuc, length, All};
ghost use Rattle.fx_rational.specs.Rational.{whole, is_at_most};
ghost use Rattle.fx_calm.specs.Summands.{IsSummand, IsReady, sum_of, digit, rest, digits, rests, left};

use crate::summand::Summand;

/// How many digits decide: 64 denominators of 122 bits, and 7 bits for their count, make 2,605 digits of three bits.
const DIGITS: u32 = 2605;

/// How often the bottom goes into `c` times the top.
fn digit_of(x: Summand, c: u128) -> u128
    requires ready { IsReady c x }
    ensures value { result ≡ digit c x }
    ensures small { result < 2 ^ 62 }
{
    c * x.top / x.bottom
}

/// What is left of it.
fn rest_of(x: Summand, c: u128) -> Summand
    requires ready { IsReady c x }
    ensures { result ≡ rest c x }
{
    Summand {
        top: c * x.top % x.bottom,
        bottom: x.bottom,
    }
}

/// All are divided: each leaves its rest, and the digits are added up.
fn turn(summands: &mut [Summand], c: u128) -> u128
    requires ready { All (IsReady c) summands.old }
    requires few { length summands.old ≤ 64 }
    ensures rests { summands.new ≡ rests c summands.old }
    ensures digits { result ≡ digits c summands.old }
    ensures small { result ≤ 2 ^ 68 }
{
    let mut s = 0;
    for i in 0..summands.len() {
        let x = summands[i];
        s += digit_of(x, c);
        summands[i] = rest_of(x, c);
    }
    s
}

/// 1 for a number that isn't zero, and 0 for zero.
fn one(x: Summand) -> u32
    ensures value { result ≡ min x.top 1 }
    ensures few { result ≤ 1 }
{
    x.top.min(1) as u32
}

/// How many of them aren't zero.
fn left(summands: &[Summand]) -> u32
    requires { length summands.now ≤ 64 }
    ensures value { result ≡ left summands.now }
    ensures few { result ≤ 64 }
{
    let mut count = 0;
    for i in 0..summands.len() {
        count += one(summands[i]);
    }
    count
}

/// What was divided first, less the limit.
fn start(digits: u128, limit: u64) -> i128
    requires { digits ≤ 2 ^ 68 }
    ensures { result ≡ pos digits -ℤ pos limit }
{
    digits as i128 - i128::from(limit)
}

/// Ten times as much, and the next digits.
fn next(s: i128, digits: u128) -> i128
    requires low { negsuc 100 ≤ℤ s }
    requires high { s ≤ℤ pos 100 }
    requires few { digits ≤ 2 ^ 68 }
    ensures { result ≡ pos 10 *ℤ s +ℤ pos digits }
{
    10 * s + digits as i128
}

/// Whether so many numbers below one can't lift it above zero.
fn is_under(s: i128, count: u32) -> bool
    requires few { count ≤ 64 }
    requires low { negsuc (2 ^ 70) ≤ℤ s }
    requires high { s ≤ℤ pos (2 ^ 70) }
    ensures { result ≡ int_le (s +ℤ pos count) (pos 0) }
{
    s + i128::from(count) <= 0
}

/// Whether the numbers add up to at most `limit`. They are divided in their place.
pub fn adds_up_to(summands: &mut [Summand], limit: u64) -> bool
    requires summands { All IsSummand summands.old }
    requires few { length summands.old ≤ 64 }
    ensures { result ≡ is_at_most (sum_of summands.old) (whole (pos limit)) }
{
    let mut s = start(turn(summands, 1), limit);
    for _turn in 0..DIGITS {
        if s >= 1 {
            return false;
        }
        if is_under(s, left(summands)) {
            return true;
        }
        s = next(s, turn(summands, 10));
    }
    s <= 0
}
