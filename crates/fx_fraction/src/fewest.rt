//! A decimal in the fewest places.
ghost use Rattle.std.specs.Prelude.{◌≡◌, ◌≤◌, IfSome, Ok};
ghost use Rattle.fx_fraction.specs.DecimalOf.{trimmed, within_limits};

use crate::decimal::{Decimal, signed};

// A decimal's whole number is below this.
const LIMIT: u64 = 1 << 62;

/// The decimal of a number and its places, in the fewest places. None where no `Decimal` has that value.
#[inline]
pub fn fewest_places(is_negative: bool, size: u64, places: u8) -> Option<Decimal>
    requires { places ≤ 18 }
    ensures { IfSome result (λ d. within_limits is_negative (trimmed size places) ≡ Ok d) }
{
    let mut front = size;
    let mut left = places;
    while left > 0 && front % 10 == 0 {
        front /= 10;
        left -= 1;
    }
    if front >= LIMIT {
        return None;
    }
    Some(Decimal {
        a: signed(is_negative, front),
        b: left,
    })
}
