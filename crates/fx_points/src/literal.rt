//! Literals: where their words are exact, and how far they are off elsewhere.
ghost use Rattle.std.specs.Prelude.{◌<◌, ◌^◌};

use crate::choice::{Choice, Choices};
use crate::entry::{Entry, Exact};
use fx_fraction::Fraction;
use fx_num::raised;
use fx_search_numbers::Rounded;

/// The numerator without its sign.
fn top(c: Fraction) -> u64
    ensures { result < 2 ^ 62 }
{
    c.p.unsigned_abs() as u64
}

/// The denominator.
fn bottom(c: Fraction) -> u64
    ensures some { 0 < result }
    ensures few { result < 2 ^ 62 }
{
    c.q as u64
}

/// The least point at which a literal is a whole word, if there is one.
fn exact_point(c: Fraction) -> Option<i8> {
    let p = top(c);
    let q = bottom(c);
    if !q.is_power_of_two() {
        None
    } else if q == 1 && p != 0 {
        Some(-(p.trailing_zeros() as i8))
    } else {
        Some(q.trailing_zeros() as i8)
    }
}

/// How far the nearest word at a point is from a literal.
fn nearest_miss(c: Fraction, f: i8) -> Rounded {
    let whole = raised(top(c), u32::from(f.clamp(0, 64).unsigned_abs()));
    let unit = raised(bottom(c), u32::from(f.clamp(-64, 0).unsigned_abs()));
    if unit == 0 {
        return Rounded::INFINITE;
    }
    let rest = whole % unit;
    let miss = rest.min(unit - rest);
    let share = Rounded::of(miss as i128, 0).over(Rounded::of(unit as i128, 0));
    share.times(Rounded::power(-i32::from(f)))
}

/// The points of a literal.
pub fn literal(c: Fraction, cap: i8) -> Entry {
    match exact_point(c) {
        Some(least) if least <= cap => Entry::Exact(Exact {
            least,
            greatest: cap,
        }),
        _ => Entry::Listed(Choices::down_from(i32::from(cap), Choice::POINTS, |f| {
            Some(Choice::alone(f, nearest_miss(c, f)))
        })),
    }
}
