//! Digits with at most one point among or around them, from a place of a text on.
ghost use Rattle.std.specs.Prelude.{◌≡◌, ◌+◌, ◌%◌, ◌^◌, ◌<◌, ◌≤◌, length, drop, slice_range, IfSome};
ghost use Rattle.std.specs.Str.Parse.{digits_value};
ghost use Rattle.fx_fraction.specs.Numeral.{digit_count};
ghost use Rattle.fx_text.specs.Leading.{IsUnsigned};

use core::dec2flt::read_digits;

// As many digits come to less than 2^64.
const FEW: usize = 19;

/// Digits that stand in a text: what they come to, how many stand behind the point, and where they end.
#[derive(Clone, Copy)]
pub(crate) struct Unsigned {
    pub size: u64,
    pub places: usize,
    pub end: usize,
}

// The digits before a point, one by one, since they are few: where they end, and their number modulo 2^64.
#[inline]
fn first_digits(text: &[u8], from: usize) -> (usize, u64)
    requires { from ≤ length text.now }
    ensures end { result.0 ≡ from + digit_count (drop from text.now) }
    ensures within { result.0 ≤ length text.now }
    ensures value { result.1 ≡ digits_value 10 (slice_range text.now from result.0) % 2 ^ 64 }
{
    let mut at = from;
    let mut value = 0u64;
    while at < text.len() {
        let digit = text[at].wrapping_sub(b'0');
        if digit > 9 {
            break;
        }
        value = value.wrapping_mul(10).wrapping_add(u64::from(digit));
        at += 1;
    }
    (at, value)
}

/// The digits from a place on, if they are few and there is one.
#[inline]
pub(crate) fn unsigned_at(text: &[u8], from: usize) -> Option<Unsigned>
    requires { from ≤ length text.now }
    ensures { IfSome result (λ n. IsUnsigned text.now from n.size n.places n.end) }
{
    let (point, whole) = first_digits(text, from);
    if point < text.len() && text[point] == b'.' {
        let (end, size) = read_digits(text, point + 1, whole);
        let places = end - (point + 1);
        let count = point - from + places;
        if count == 0 || count > FEW {
            return None;
        }
        return Some(Unsigned { size, places, end });
    }
    if point == from || point - from > FEW {
        return None;
    }
    Some(Unsigned {
        size: whole,
        places: 0,
        end: point,
    })
}
