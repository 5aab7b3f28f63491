//! Digits as they come, in one pass and in 64 bits.
//!
//! A number may have any count of digits: a megabyte of zeros is a zero, and `1` with a million zeros and `e-1000000`
//! is a one. So zeros are counted, and only the digits up to the last that isn't 0 are kept as a number; once these
//! reach 2^62 no decimal has the value, whatever power of ten follows.

ghost use Rattle.std.specs.Prelude.{◌≡◌, ◌+◌, ◌-◌, ◌*◌, ◌<◌, ◌≤◌, ◌^◌, ℕ, length};
ghost use Rattle.std.specs.Str.Parse.{digits_value_after};
ghost use Rattle.fx_fraction.specs.Numeral.{digit_count, first_digits};
ghost use Rattle.fx_fraction.specs.Kept.{Keeps, FitsFront, zeros_of};

use crate::decimal::ten_to;

/// What is kept of a number that is read digit by digit.
#[derive(Clone, Copy)]
pub enum Significant {
    Zero,
    /// The digits up to the last that isn't 0, and how many zeros stand behind it.
    Front { front: u64, zeros: u64 },
    /// The digits up to the last that isn't 0 are 2^62 or more.
    Long,
}

/// A digit that isn't 0, behind a front and its zeros.
fn joined(front: u64, zeros: u64, digit: u64) -> Significant
    requires digit { (0 < digit) × (digit < 10) }
    requires front { front < 2 ^ 62 }
    ensures value { (n : ℕ) → Keeps n (Significant.Front front zeros) → Keeps (n * 10 + digit) result }
    ensures zeros { zeros_of result ≡ 0 }
    ensures fits { FitsFront result }
{
    if zeros > 17 {
        return Significant::Long;
    }
    let scale = ten_to(zeros as u8 + 1);
    let next = u128::from(front) * u128::from(scale) + u128::from(digit);
    if next < 1 << 62 {
        Significant::Front {
            front: next as u64,
            zeros: 0,
        }
    } else {
        Significant::Long
    }
}

/// One more digit.
fn pushed(kept: Significant, digit: u64) -> Significant
    requires digit { digit < 10 }
    requires zeros { zeros_of kept < 2 ^ 63 }
    requires fits { FitsFront kept }
    ensures value { (n : ℕ) → Keeps n kept → Keeps (n * 10 + digit) result }
    ensures zeros { zeros_of result ≤ zeros_of kept + 1 }
    ensures fits { FitsFront result }
{
    match kept {
        Significant::Zero => {
            if digit == 0 {
                Significant::Zero
            } else {
                Significant::Front {
                    front: digit,
                    zeros: 0,
                }
            }
        }
        Significant::Front { front, zeros } => {
            if digit == 0 {
                Significant::Front {
                    front,
                    zeros: zeros + 1,
                }
            } else {
                joined(front, zeros, digit)
            }
        }
        Significant::Long => Significant::Long,
    }
}

/// Reads the digits that stand first behind those that are `kept`, and says how many these are.
pub fn read_digits(kept: Significant, text: &[u8]) -> (Significant, usize)
    requires zeros { zeros_of kept + length text.now < 2 ^ 63 }
    requires fits { FitsFront kept }
    ensures count { result.1 ≡ digit_count text.now }
    ensures within { result.1 ≤ length text.now }
    ensures value { (n : ℕ) → Keeps n kept → Keeps (digits_value_after 10 n (first_digits text.now)) result.0 }
    ensures zeros { zeros_of result.0 ≤ zeros_of kept + result.1 }
    ensures fits { FitsFront result.0 }
{
    let mut now = kept;
    for (i, byte) in text.iter().enumerate() {
        if !byte.is_ascii_digit() {
            return (now, i);
        }
        now = pushed(now, u64::from(*byte - b'0'));
    }
    (now, text.len())
}
