//! Whole numbers and dyadics, each in its one spelling.
//!
//! A number of a hundred digits is a number, so it has to be told from what is none: it is read to its end, and kept as
//! the greatest number of 64 bits. The trap: an odd number can be kept as an even one and an even one as an odd one, so
//! whether a mantissa is odd is asked of its last digit.

ghost use Rattle.std.specs.Prelude.{◌≡◌, ◌==◌, ◌||◌, ◌%◌, ◌-◌, length, option_map, slice_index};
ghost use Rattle.fx_fraction.specs.Digits.{saturated};
ghost use Rattle.fx_text.specs.Numbers.{has_good_front, whole_of, integer_of, kept_signed, dyadic_of, kept_dyadic};

use crate::cut::cut_at;
use fx_fraction::read_natural;

fn has_good_front(field: &[u8]) -> bool
    ensures { result ≡ has_good_front field.now }
{
    match field {
        [] => false,
        [_] => true,
        [first, ..] => *first != b'0',
    }
}

/// The number that the field spells, or the greatest `u64` where it is greater still.
#[tactic(auto, unfolding(crate::specs::Numbers::whole_of))]
pub fn whole(field: &[u8]) -> Option<u64>
    ensures { result ≡ option_map saturated (whole_of field.now) }
{
    if has_good_front(field) {
        read_natural(field)
    } else {
        None
    }
}

/// The number that the field spells, cut off at both ends of 65 bits.
#[tactic(auto, unfolding(crate::specs::Numbers::integer_of))]
pub fn integer(field: &[u8]) -> Option<i128>
    ensures { result ≡ option_map kept_signed (integer_of field.now) }
{
    match field {
        [b'-', digits @ ..] => {
            let size = whole(digits)?;
            if size == 0 {
                None
            } else {
                Some(-i128::from(size))
            }
        }
        _ => Some(i128::from(whole(field)?)),
    }
}

/// Whether m / 2^e is in its one spelling, given the bytes of m: e is 0 or m ends in an odd digit.
fn is_reduced(mantissa: &[u8], e: u64) -> bool
    ensures { result ≡ (e == 0 || slice_index mantissa.now (length mantissa.now - 1) % 2 == 1) }
{
    match mantissa {
        [.., last] => e == 0 || last % 2 == 1,
        [] => e == 0,
    }
}

/// The mantissa and the exponent that the field spells, each cut off as `integer` and `whole` do.
#[tactic(auto, unfolding(crate::specs::Numbers::dyadic_of))]
pub fn dyadic_parts(field: &[u8]) -> Option<(i128, u64)>
    ensures { result ≡ option_map kept_dyadic (dyadic_of field.now) }
{
    let (mantissa, exponent) = cut_at(field, b':')?;
    let m = integer(mantissa)?;
    let e = whole(exponent)?;
    if is_reduced(mantissa, e) {
        Some((m, e))
    } else {
        None
    }
}
