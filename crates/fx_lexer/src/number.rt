//! Numbers: digits, maybe a point and digits, maybe a power of ten.
//!
//! A point or an `e` that no digit follows isn't part of the number. The trap: a number that is too long is that before
//! a letter behind it is looked at.

ghost use Rattle.std.specs.Prelude.{◌≡◌, ◌+◌, ◌<◌, ◌≤◌, length};
ghost use Rattle.std.specs.List.{prefix_len};
ghost use Rattle.std.specs.Char.{is_ascii_digit};
ghost use Rattle.fx_lexer.specs.Numbers.{digits_at, part_len, mark_len, power_len, number_len};
ghost use Rattle.fx_lexer.specs.Tokens.{number_item};

use crate::byte::byte_at;
use crate::fault::SourceKind;
use crate::item::Item;
use crate::token::TokenKind;
use fx_fraction::read_decimal;
use fx_name::is_letter;

/// How many digits stand first.
fn digits_len(bytes: &[u8]) -> usize
    ensures { result ≡ prefix_len is_ascii_digit bytes.now }
{
    for (i, byte) in bytes.iter().enumerate() {
        if !byte.is_ascii_digit() {
            return i;
        }
    }
    bytes.len()
}

/// How many digits stand from a place on.
#[tactic(auto, unfolding(crate::specs::Numbers::digits_at))]
fn digits_from(bytes: &[u8], i: usize) -> usize
    requires { i ≤ length bytes.now }
    ensures value { result ≡ digits_at i bytes.now }
    ensures within { i + result ≤ length bytes.now }
{
    digits_len(&bytes[i..])
}

/// The length of the point at a place with the digits behind it.
#[tactic(auto, unfolding(crate::specs::Numbers::part_len))]
fn part_len(bytes: &[u8], i: usize) -> usize
    requires { i ≤ length bytes.now }
    ensures value { result ≡ part_len i bytes.now }
    ensures within { i + result ≤ length bytes.now }
{
    if byte_at(bytes, i) != b'.' {
        return 0;
    }
    let digits = digits_from(bytes, i + 1);
    if digits == 0 { 0 } else { 1 + digits }
}

/// The length of the `e` at a place with the sign behind it.
#[tactic(auto, unfolding(crate::specs::Numbers::mark_len))]
fn mark_len(bytes: &[u8], i: usize) -> usize
    requires { i < length bytes.now }
    ensures value { result ≡ mark_len i bytes.now }
    ensures within { i + result ≤ length bytes.now }
{
    let sign = byte_at(bytes, i + 1);
    if sign == b'+' || sign == b'-' { 2 } else { 1 }
}

/// The length of the power of ten at a place.
#[tactic(auto, unfolding(crate::specs::Numbers::power_len))]
fn power_len(bytes: &[u8], i: usize) -> usize
    requires { i ≤ length bytes.now }
    ensures value { result ≡ power_len i bytes.now }
    ensures within { i + result ≤ length bytes.now }
{
    let letter = byte_at(bytes, i);
    if letter != b'e' && letter != b'E' {
        return 0;
    }
    let mark = mark_len(bytes, i);
    let digits = digits_from(bytes, i + mark);
    if digits == 0 { 0 } else { mark + digits }
}

/// The length of the number at the front.
#[tactic(auto, unfolding(crate::specs::Numbers::number_len))]
fn number_len(bytes: &[u8]) -> usize
    ensures value { result ≡ number_len bytes.now }
    ensures within { result ≤ length bytes.now }
{
    let whole = digits_from(bytes, 0);
    let mantissa = whole + part_len(bytes, whole);
    mantissa + power_len(bytes, mantissa)
}

/// The number at the front.
pub fn number_item(bytes: &[u8]) -> Result<Item, SourceKind>
    ensures { result ≡ number_item bytes.now }
{
    let len = number_len(bytes);
    if read_decimal(&bytes[..len]).is_err() {
        return Err(SourceKind::NumberTooLong);
    }
    if is_letter(byte_at(bytes, len)) {
        return Err(SourceKind::BadNumber);
    }
    Ok(Item {
        len,
        kind: Some(TokenKind::Number),
    })
}
