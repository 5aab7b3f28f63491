//! Reading one field, or two, from the front of a line.
//!
//! Each reader says by one clause that it reads what its definition reads, value and rest or fault, and by a second the
//! range of what it gives. So a reader above is a chain of `?` over a `do` of definitions, and casts nothing.

ghost use Rattle.std.specs.Prelude.{◌<◌, ◌≤◌, All, IfOk};
ghost use Rattle.fx_rational.specs.Dyadic.{IsWritten};
ghost use Rattle.fx_text.specs.Reading.{IsWithin, Reads, ReadsRest, keyword_at, number_at, place_at, count_at, ended_at, dyadic_at, interval_at};
ghost use Rattle.fx_text.specs.Lines.{GivesFields};
ghost use Rattle.fx_text.specs.Many.{dyadics_at};

use crate::cut::Fields;
use crate::fault::TextKind;
use crate::numeral::{dyadic_parts, integer};
use fx_num::Dyadic;
use std::alloc::Global;

// What a dyadic's mantissa stays below, either side of zero.
const MANTISSA_END: u128 = 1 << 62;

const EXPONENT_LIMIT: u64 = fx_num::EXPONENT_LIMIT as u64;

/// A fixed word. BadLine where the field is missing or another.
#[tactic(auto, unfolding(crate::specs::Reading::keyword_at))]
pub fn word(fields: &mut Fields<'_>, word: &[u8]) -> Result<(), TextKind>
    ensures { ReadsRest result fields.new (keyword_at word.now fields.old) }
{
    let field = fields.next().ok_or(TextKind::BadLine)?;
    if field != word {
        return Err(TextKind::BadLine);
    }
    Ok(())
}

/// A number from `low` to `high`. BadLine where the field is missing, BadNumber where it is no number, else OutOfRange.
#[tactic(auto, unfolding(crate::specs::Reading::number_at))]
pub fn number(fields: &mut Fields<'_>, low: i64, high: i64) -> Result<i64, TextKind>
    ensures value { Reads (λ z. z) result fields.new (number_at low high fields.old) }
    ensures range { IfOk result (IsWithin low high) }
{
    let field = fields.next().ok_or(TextKind::BadLine)?;
    let value = integer(field).ok_or(TextKind::BadNumber)?;
    if value < i128::from(low) || value > i128::from(high) {
        return Err(TextKind::OutOfRange);
    }
    Ok(value as i64)
}

/// As `number`, in 32 bits.
pub fn small(fields: &mut Fields<'_>, low: i32, high: i32) -> Result<i32, TextKind>
    ensures value { Reads (λ z. z) result fields.new (number_at low high fields.old) }
    ensures range { IfOk result (IsWithin low high) }
{
    let value = number(fields, i64::from(low), i64::from(high))?;
    Ok(value as i32)
}

/// A place below `end`, counted from 0. A negative number is OutOfRange too.
#[tactic(auto, unfolding(crate::specs::Reading::place_at))]
pub fn place(fields: &mut Fields<'_>, end: u32) -> Result<u32, TextKind>
    ensures value { Reads (λ n. n) result fields.new (place_at end fields.old) }
    ensures range { IfOk result (λ n. n < end) }
{
    let value = number(fields, 0, i64::from(end) - 1)?;
    Ok(value as u32)
}

/// A count: TooMany above its limit, OutOfRange below `low`.
#[tactic(auto, unfolding(crate::specs::Reading::count_at))]
pub fn count(fields: &mut Fields<'_>, low: u32, limit: u32) -> Result<u32, TextKind>
    ensures value { Reads (λ n. n) result fields.new (count_at low limit fields.old) }
    ensures range { IfOk result (λ n. (low ≤ n) × (n ≤ limit)) }
{
    let field = fields.next().ok_or(TextKind::BadLine)?;
    let value = integer(field).ok_or(TextKind::BadNumber)?;
    if value > i128::from(limit) {
        return Err(TextKind::TooMany);
    }
    if value < i128::from(low) {
        return Err(TextKind::OutOfRange);
    }
    Ok(value as u32)
}

/// The line's end. BadLine where a field is left.
pub fn ended(fields: &Fields<'_>) -> Result<(), TextKind>
    ensures { ReadsRest result fields.now (ended_at fields.now) }
{
    if fields.is_done() {
        Ok(())
    } else {
        Err(TextKind::BadLine)
    }
}

/// A dyadic `m:e`. BadNumber where it isn't spelled as one, else OutOfRange: |m| is 2^62 or more, or e is above 96.
#[tactic(auto, unfolding(crate::specs::Reading::dyadic_at))]
pub fn dyadic(fields: &mut Fields<'_>) -> Result<Dyadic, TextKind>
    ensures value { Reads (λ d. d) result fields.new (dyadic_at fields.old) }
    ensures written { IfOk result IsWritten }
{
    let field = fields.next().ok_or(TextKind::BadLine)?;
    let (m, e) = dyadic_parts(field).ok_or(TextKind::BadNumber)?;
    if m.unsigned_abs() >= MANTISSA_END || e > EXPONENT_LIMIT {
        return Err(TextKind::OutOfRange);
    }
    Ok(Dyadic { m, e: e as u32 })
}

/// An interval: its lower end and then its upper one, each as `dyadic`. No order of the ends is asked for.
#[tactic(auto, unfolding(crate::specs::Reading::interval_at))]
pub fn interval(fields: &mut Fields<'_>) -> Result<(Dyadic, Dyadic), TextKind>
    ensures value { Reads (λ ends. record { lo = ends.0; hi = ends.1 }) result fields.new (interval_at fields.old) }
    ensures written { IfOk result (λ ends. IsWritten ends.0 × IsWritten ends.1) }
{
    let lo = dyadic(fields)?;
    let hi = dyadic(fields)?;
    Ok((lo, hi))
}

/// `count` dyadics, each as `dyadic`. Memory where none was left.
pub fn dyadics(alloc: Global, fields: &mut Fields<'_>, count: u32) -> Result<Vec<Dyadic>, TextKind>
    ensures value { GivesFields (λ ds. ds.items) result fields.new (dyadics_at count fields.old) }
    ensures written { IfOk result (λ ds. All IsWritten ds.items) }
{
    let mut found = Vec::new(alloc);
    for _ in 0..count {
        let d = dyadic(fields)?;
        found.push(d)?;
    }
    Ok(found)
}
