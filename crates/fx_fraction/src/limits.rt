//! From the digits and the places of a text to a decimal within the limits.
//!
//! A front that ends in no 0 has the fewest places as it stands: only a shift to the left multiplies, and one by more
//! than 18 places in either direction is beyond the limits whatever the front is.

ghost use Rattle.std.specs.Prelude.{◌≡◌, ◌<◌, ◌^◌, ◌%◌, ◌≤ℤ◌, ℕ, pos, negsuc};
ghost use Rattle.fx_fraction.specs.DecimalOf.{within_limits, fewest_places};
ghost use Rattle.fx_fraction.specs.Kept.{Keeps, FitsFront};
ghost use Rattle.fx_fraction.specs.ReadParts.{by_shift};

use crate::decimal::{Decimal, signed, ten_to};
use crate::fault::NumberFault;
use crate::significant::Significant;

/// Behind the point no decimal has more digits, and `10^MOST_PLACES` is the last power of ten below 2^62.
const MOST_PLACES: u128 = 18;

/// `front * 10^shift`, or `front / 10^-shift`.
fn scaled(is_negative: bool, front: u64, shift: i128) -> Result<Decimal, NumberFault>
    requires last { 0 < front % 10 }
    requires fits { front < 2 ^ 62 }
    ensures { result ≡ within_limits is_negative (by_shift front shift) }
{
    if shift.unsigned_abs() > MOST_PLACES {
        return Err(NumberFault::TooLong);
    }
    if shift < 0 {
        let a = signed(is_negative, front);
        return Ok(Decimal {
            a,
            b: (-shift) as u8,
        });
    }
    let size = u128::from(front) * u128::from(ten_to(shift as u8));
    if size >= 1 << 62 {
        return Err(NumberFault::TooLong);
    }
    let a = signed(is_negative, size as u64);
    Ok(Decimal { a, b: 0 })
}

/// The decimal of the digits that were kept, so many of them behind the point.
pub fn placed(is_negative: bool, digits: Significant, places: i128) -> Result<Decimal, NumberFault>
    requires fits { FitsFront digits }
    requires low { negsuc (2 ^ 65) ≤ℤ places }
    requires high { places ≤ℤ pos (2 ^ 65) }
    ensures { (n : ℕ) → Keeps n digits → result ≡ within_limits is_negative (fewest_places n places) }
{
    match digits {
        Significant::Zero => Ok(Decimal { a: 0, b: 0 }),
        Significant::Long => Err(NumberFault::TooLong),
        Significant::Front { front, zeros } => {
            scaled(is_negative, front, i128::from(zeros) - places)
        }
    }
}
