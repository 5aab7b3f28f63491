//! The quick form of most numbers: texts of at most 19 bytes behind the sign, whose digits come to less than 2^62.
//!
//! The digits are added up in one word, and the zeros come off at the end, where `Significant` counts them as they
//! come. What is longer is read digit by digit. Nearly always there is no power of ten either, and then the decimal is
//! there at once.

ghost use Rattle.std.specs.Prelude.{◌≡◌, ◌+◌, ◌-◌, ◌<◌, ◌≤◌, ◌^◌, length, IfSome, Ok};
ghost use Rattle.std.specs.Str.Parse.{digits_value_after};
ghost use Rattle.fx_fraction.specs.Numeral.{digit_count, first_digits};
ghost use Rattle.fx_fraction.specs.DecimalOf.{decimal_of};
ghost use Rattle.fx_fraction.specs.Kept.{Keeps, FitsFront, zeros_of};
ghost use Rattle.fx_fraction.specs.ReadParts.{IsBelowTens, IsMantissa, IsShortNumber, IsShortPart};

use crate::decimal::Decimal;
use crate::fewest::fewest_places;
use crate::read::{Mantissa, behind_sign, is_negative};
use crate::significant::Significant;

// As many digits come to less than 2^64, so that none needs a test of its own.
const FEW: usize = 19;

// What is read of a short text is below this.
const KEPT: u64 = 1 << 62;

/// The digits that stand first in a text of few bytes, behind those that came to `start`: what they come to, and how
/// many they are.
fn few_digits(start: u64, text: &[u8]) -> (u64, usize)
    requires { IsBelowTens start (length text.now) }
    ensures count { result.1 ≡ digit_count text.now }
    ensures within { result.1 ≤ length text.now }
    ensures value { result.0 ≡ digits_value_after 10 start (first_digits text.now) }
    ensures few { IsBelowTens result.0 (length text.now - result.1) }
{
    let mut now = start;
    for (i, byte) in text.iter().enumerate() {
        if !byte.is_ascii_digit() {
            return (now, i);
        }
        now = now * 10 + u64::from(*byte - b'0');
    }
    (now, text.len())
}

/// The digits behind a point, where a point stands first, after those that came to `start`: what they come to, how
/// many they are, and where they end.
fn few_part(start: u64, text: &[u8]) -> (u64, usize, usize)
    requires { IsBelowTens start (length text.now) }
    ensures { result.0 < 2 ^ 62 → IsShortPart start text.now result }
{
    match text {
        [b'.', part @ ..] => {
            let (size, places) = few_digits(start, part);
            (size, places, places + 1)
        }
        _ => (start, 0, 0),
    }
}

/// A number without the zeros at its end, and how many they are.
fn stripped(size: u64) -> Significant
    requires { size < 2 ^ 62 }
    ensures value { Keeps size result }
    ensures zeros { zeros_of result < 2 ^ 62 }
    ensures fits { FitsFront result }
{
    if size == 0 {
        return Significant::Zero;
    }
    let mut front = size;
    let mut zeros = 0;
    while front % 10 == 0 {
        front /= 10;
        zeros += 1;
    }
    Significant::Front { front, zeros }
}

/// The digits that stand first in a short text, with the point among or around them.
#[derive(Clone, Copy)]
struct ShortNumber {
    size: u64,
    places: usize,
    end: usize,
}

/// The digits behind the sign. None where the text is long, or there is none.
fn first_number(body: &[u8]) -> Option<ShortNumber>
    ensures { IfSome result (λ n. IsShortNumber body.now n.size n.places n.end) }
{
    if body.len() > FEW {
        return None;
    }
    let (whole, count) = few_digits(0, body);
    let (size, places, end) = few_part(whole, &body[count..]);
    if size >= KEPT || count + places == 0 {
        return None;
    }
    Some(ShortNumber {
        size,
        places,
        end: count + end,
    })
}

/// The number that a text of few bytes spells, with what is kept of its digits. None where it is long, or none.
pub fn read_short(body: &[u8]) -> Option<Mantissa>
    ensures { IfSome result (λ m. IsMantissa body.now m.digits m.places m.end) }
{
    let number = first_number(body)?;
    Some(Mantissa {
        digits: stripped(number.size),
        places: number.places,
        end: number.end,
    })
}

/// The decimal that a text spells, where it is short and has no power of ten.
pub fn read_plain(text: &[u8]) -> Option<Decimal>
    ensures { IfSome result (λ d. decimal_of text.now ≡ Ok d) }
{
    let body = behind_sign(text);
    let number = first_number(body)?;
    if number.end < body.len() || number.places > 18 {
        return None;
    }
    fewest_places(is_negative(text), number.size, number.places as u8)
}
