//! The decimal text of a word at a binary point.
//!
//! The whole part goes through `itoa`, and so do at most 18 digits behind the point: of an odd number over 2^places
//! there are as many as places, and they are the number times 5^places. More digits come by long division, one at each
//! step: ten times the rest over 2^(left + 1) is five times the rest over 2^left, so that 64 bits hold every step but
//! the first at 62 places. The division ends by itself, with a digit that isn't 0, since 2 divides 10.

ghost use Rattle.std.specs.Prelude.{◌≡◌, ◌+◌, ◌*◌, ◌-◌, ◌/◌, ◌%◌, ◌^◌, ◌≤◌, ◌<◌, ◌++◌, ◌∷◌, [], map, take, drop, length, decimal, pos, negsuc, neg_ℤ, ◌≤ℤ◌, ◌<ℤ◌, unsigned_abs, ℕ};
ghost use Rattle.fx_model.specs.WordText.{digits_after, pointed, size_text, minus_sign, decimal_text};

use crate::decimal::ten_to;
use itoa::{Buffer, Integer, write_digits};

/// Puts bytes at a place, and gives the place behind them.
fn put(out: &mut [u8], at: usize, bytes: &[u8]) -> usize
    requires { at + length bytes.now ≤ length out.old }
    ensures written { take result out.new ≡ take at out.old ++ bytes.now }
    ensures rest { drop result out.new ≡ drop result out.old }
    ensures end { result ≡ at + length bytes.now }
{
    let end = at + bytes.len();
    out[at..end].copy_from_slice(bytes);
    end
}

fn put_byte(out: &mut [u8], at: usize, byte: u8) -> usize
    requires { at < length out.old }
    ensures written { take result out.new ≡ take at out.old ++ byte ∷ [] }
    ensures rest { drop result out.new ≡ drop result out.old }
    ensures end { result ≡ at + 1 }
{
    out[at] = byte;
    at + 1
}

/// A number of at most 40 digits, which `itoa` writes several times as fast from 64 bits as from 128.
fn put_number<I: Integer>(out: &mut [u8], at: usize, number: I) -> usize
    requires { at + 40 ≤ length out.old }
    ensures written { take result out.new ≡ take at out.old ++ I.text number }
    ensures rest { drop result out.new ≡ drop result out.old }
    ensures end { (at ≤ result) × (result ≤ at + 40) }
{
    let mut buffer = Buffer::new();
    let text = buffer.format(number);
    put(out, at, text.as_bytes())
}

/// A whole number, which has one digit nearly always.
fn put_whole(out: &mut [u8], at: usize, whole: u64) -> usize
    requires { at + 40 ≤ length out.old }
    ensures written { take result out.new ≡ take at out.old ++ decimal whole }
    ensures rest { drop result out.new ≡ drop result out.old }
    ensures end { (at ≤ result) × (result ≤ at + 40) }
{
    if whole < 10 {
        put_byte(out, at, b'0' + whole as u8)
    } else {
        put_number(out, at, whole)
    }
}

/// A point and the digits behind it of `rest / 2^places`.
///
/// `itoa` writes their number behind a one, so that no zero is lost, and the point takes the one's place.
fn put_few(out: &mut [u8], at: usize, rest: u64, places: u32) -> usize
    requires some { 0 < places }
    requires few { places ≤ 18 }
    requires below { rest < 2 ^ places }
    requires odd { rest % 2 ≡ 1 }
    requires room { at + places + 1 ≤ length out.old }
    ensures written { (zeros : ℕ) →
        take result out.new ≡ take at out.old ++ pointed (digits_after (places + zeros) (rest * 2 ^ zeros)) }
    ensures rest { drop result out.new ≡ drop result out.old }
    ensures end { result ≡ at + places + 1 }
{
    let power = ten_to(places as u8);
    let end = at + places as usize + 1;
    write_digits(power + rest * (power >> places), out, end);
    put_byte(out, at, b'.');
    end
}

/// The first digit behind the point of `rest / 2^(left + 1)`, and what is left over 2^left.
fn next_digit(rest: u64, left: u32) -> (u8, u64)
    requires few { left < 62 }
    requires below { rest < 2 ^ (left + 1) }
    ensures digit { result.0 ≡ 5 * rest / 2 ^ left }
    ensures small { result.0 < 10 }
    ensures rest { result.1 ≡ 5 * rest % 2 ^ left }
{
    if left < 61 {
        let next = 5 * rest;
        ((next >> left) as u8, next & ((1 << left) - 1))
    } else {
        let next = 5 * u128::from(rest);
        let rest = next & ((1 << left) - 1);
        ((next >> left) as u8, rest as u64)
    }
}

/// The digits behind the point of `rest / 2^point`.
fn put_digits(out: &mut [u8], at: usize, rest: u64, point: u32) -> usize
    requires few { point ≤ 62 }
    requires below { rest < 2 ^ point }
    requires room { at + point ≤ length out.old }
    ensures written { take result out.new ≡ take at out.old ++ map (λ k. 48 + k) (digits_after point rest) }
    ensures rest { drop result out.new ≡ drop result out.old }
    ensures end { (at ≤ result) × (result ≤ at + point) }
{
    let mut left = point;
    let mut now = rest;
    let mut end = at;
    while now != 0 {
        left -= 1;
        let (digit, rest) = next_digit(now, left);
        now = rest;
        end = put_byte(out, end, b'0' + digit);
    }
    end
}

/// The digits behind the point, and a point before them where there are any.
fn put_part(out: &mut [u8], at: usize, rest: u64, point: u32) -> usize
    requires few { point ≤ 62 }
    requires below { rest < 2 ^ point }
    requires room { at + point + 1 ≤ length out.old }
    ensures written { take result out.new ≡ take at out.old ++ pointed (digits_after point rest) }
    ensures rest { drop result out.new ≡ drop result out.old }
    ensures end { (at ≤ result) × (result ≤ at + point + 1) }
{
    if rest == 0 {
        return at;
    }
    let zeros = rest.trailing_zeros();
    let places = point - zeros;
    if places <= 18 {
        return put_few(out, at, rest >> zeros, places);
    }
    let end = put_byte(out, at, b'.');
    put_digits(out, end, rest, point)
}

/// The text of `size / 2^point`.
fn put_size(out: &mut [u8], at: usize, size: u64, point: i32) -> usize
    requires size { size ≤ 2 ^ 63 }
    requires low { negsuc 63 ≤ℤ point }
    requires high { point ≤ℤ pos 62 }
    requires room { at + 103 ≤ length out.old }
    ensures written { take result out.new ≡ take at out.old ++ size_text size point }
    ensures rest { drop result out.new ≡ drop result out.old }
    ensures end { (at ≤ result) × (result ≤ at + 103) }
{
    let shift = point.unsigned_abs();
    if point < 0 {
        return put_number(out, at, u128::from(size) << shift);
    }
    let end = put_whole(out, at, size >> shift);
    put_part(out, end, size & ((1 << shift) - 1), shift)
}

fn put_sign(out: &mut [u8], is_negative: bool) -> usize
    requires { 1 ≤ length out.old }
    ensures written { take result out.new ≡ minus_sign is_negative }
    ensures rest { drop result out.new ≡ drop result out.old }
    ensures end { result ≤ 1 }
{
    if is_negative {
        put_byte(out, 0, b'-')
    } else {
        0
    }
}

/// Writes the decimal text of `w / 2^f` into the front of `out`, and gives its length.
pub fn decimal_text(w: i128, f: i32, out: &mut [u8; 128]) -> usize
    requires least { neg_ℤ (pos (2 ^ 63)) ≤ℤ w }
    requires most { w <ℤ pos (2 ^ 63) }
    requires low { negsuc 63 ≤ℤ f }
    requires high { f ≤ℤ pos 62 }
    ensures front { take result out.new ≡ decimal_text w f }
    ensures length { result ≡ length (decimal_text w f) }
    ensures rest { drop result out.new ≡ drop result out.old }
{
    let at = put_sign(out, w < 0);
    put_size(out, at, w.unsigned_abs() as u64, f)
}
