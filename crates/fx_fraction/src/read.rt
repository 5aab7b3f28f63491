//! Decimals from text.
//!
//! The text is walked once: sign, digits, point, digits, power of ten. Nothing overflows: the digits are kept as
//! `Significant` says, and an exponent past 64 bits is kept as the greatest, since no text in memory has as many digits
//! as could bring such a value back into the limits.

ghost use Rattle.std.specs.Prelude.{◌≡◌, ◌+◌, ◌<◌, ◌≤◌, ◌^◌, ℕ, length, drop, option_map, IfSome, IfNone, Some, None, false};
ghost use Rattle.std.specs.Str.Parse.{digits_value_after};
ghost use Rattle.fx_fraction.specs.Digits.{digits_of, saturated};
ghost use Rattle.fx_fraction.specs.Numeral.{is_minus, sign_of, behind_sign, digit_count, behind_digits, part_of, part_digits, behind_part};
ghost use Rattle.fx_fraction.specs.DecimalOf.{decimal_of};
ghost use Rattle.fx_fraction.specs.Kept.{Keeps, FitsFront, zeros_of};
ghost use Rattle.fx_fraction.specs.ReadParts.{number_kept, exponent_kept, IsMantissa};

use crate::decimal::Decimal;
use crate::fault::NumberFault;
use crate::limits::placed;
use crate::short::{read_plain, read_short};
use crate::significant::{Significant, read_digits};

/// The text behind its sign, if it has one.
pub(crate) fn behind_sign(text: &[u8]) -> &[u8]
    ensures { result.now ≡ behind_sign text.now }
{
    match text {
        [b'+' | b'-', rest @ ..] => rest,
        _ => text,
    }
}

pub(crate) fn is_negative(text: &[u8]) -> bool
    ensures { result ≡ is_minus (sign_of text.now) }
{
    match text {
        [first, ..] => *first == b'-',
        _ => false,
    }
}

/// Digits with at most one point among or around them, and where they end.
#[derive(Clone, Copy)]
pub(crate) struct Mantissa {
    pub digits: Significant,
    pub places: usize,
    pub end: usize,
}

/// Goes on behind the digits before the point.
fn read_part(whole: Significant, text: &[u8]) -> Mantissa
    requires zeros { zeros_of whole + length text.now < 2 ^ 63 }
    requires fits { FitsFront whole }
    ensures value { (n : ℕ) → Keeps n whole →
        Keeps (digits_value_after 10 n (part_digits (part_of text.now))) result.digits }
    ensures zeros { zeros_of result.digits ≤ zeros_of whole + length text.now }
    ensures fits { FitsFront result.digits }
    ensures places { result.places ≡ length (part_digits (part_of text.now)) }
    ensures within { result.end ≤ length text.now }
    ensures rest { drop result.end text.now ≡ behind_part text.now }
{
    match text {
        [b'.', part @ ..] => {
            let (digits, places) = read_digits(whole, part);
            Mantissa {
                digits,
                places,
                end: places + 1,
            }
        }
        _ => Mantissa {
            digits: whole,
            places: 0,
            end: 0,
        },
    }
}

/// The digits behind the sign, with the point among or around them; none where there is no digit.
fn read_mantissa(body: &[u8]) -> Option<Mantissa>
    ensures none { IfNone result (digit_count body.now + length (part_digits (part_of (behind_digits body.now))) ≡ 0) }
    ensures some { IfSome result (λ m. IsMantissa body.now m.digits m.places m.end) }
{
    if let Some(short) = read_short(body) {
        return Some(short);
    }
    let (whole, count) = read_digits(Significant::Zero, body);
    let part = read_part(whole, &body[count..]);
    if count + part.places == 0 {
        return None;
    }
    Some(Mantissa {
        digits: part.digits,
        places: part.places,
        end: count + part.end,
    })
}

/// The number that digits spell, and the greatest `u64` where it is greater still. None where a byte is no digit.
pub fn read_natural(text: &[u8]) -> Option<u64>
    ensures { result ≡ option_map saturated (digits_of text.now) }
{
    let mut value = 0u64;
    for byte in text {
        if !byte.is_ascii_digit() {
            return None;
        }
        value = value
            .saturating_mul(10)
            .saturating_add(u64::from(*byte - b'0'));
    }
    Some(value)
}

/// The number of at least one digit.
fn read_number(digits: &[u8]) -> Option<u64>
    ensures { result ≡ number_kept digits.now }
{
    if digits.is_empty() {
        return None;
    }
    read_natural(digits)
}

/// The exponent of the power of ten that stands there, or 0 where nothing does.
fn read_exponent(text: &[u8]) -> Option<i128>
    ensures { result ≡ exponent_kept text.now }
{
    match text {
        [] => Some(0),
        [b'e' | b'E', power @ ..] => {
            let size = i128::from(read_number(behind_sign(power))?);
            if is_negative(power) {
                Some(-size)
            } else {
                Some(size)
            }
        }
        _ => None,
    }
}

// Out of line, so that the quick way is short enough to stand where it is called.
#[inline(never)]
fn read_any(text: &[u8]) -> Result<Decimal, NumberFault>
    ensures { result ≡ decimal_of text.now }
{
    let body = behind_sign(text);
    let Some(mantissa) = read_mantissa(body) else {
        return Err(NumberFault::Malformed);
    };
    let Some(exponent) = read_exponent(&body[mantissa.end..]) else {
        return Err(NumberFault::Malformed);
    };
    let places = mantissa.places as i128 - exponent;
    placed(is_negative(text), mantissa.digits, places)
}

/// The decimal that the text spells.
#[inline]
pub fn read_decimal(text: &[u8]) -> Result<Decimal, NumberFault>
    ensures { result ≡ decimal_of text.now }
{
    match read_plain(text) {
        Some(plain) => Ok(plain),
        None => read_any(text),
    }
}
