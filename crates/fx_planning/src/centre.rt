//! Centred words: a literal's word is moved so that the error of what it goes into has its middle at zero.
//!
//! Floors err to one side only, so that a sum of some floors is off by half of them. A literal that is added anyway can
//! take that off again. A literal that is used twice stays: what was worked out with it would be wrong.

use crate::error::{Errors, plain_error};
use crate::setting::Setting;
use fx_flat::Node;
use fx_num::{floor_shift, left_fits};
use fx_program::Code;
use fx_search_numbers::{FixedInterval, MaybeInterval, word_at, word_error};

/// A literal's word at a point, and by how much it differs from the literal.
#[derive(Clone, Copy)]
struct Word {
    w: i64,
    f: i32,
    error: FixedInterval,
}

/// The literal among an operation's operands that may be moved, and the other operand.
fn movable(setting: &Setting<'_>, n: usize) -> Option<(usize, usize)> {
    let (a, b) = setting.operands(n);
    let (c, other) = if setting.literal(b).is_some() {
        (b, a)
    } else {
        (a, b)
    };
    if setting.is_own_literal(c) {
        Some((c, other))
    } else {
        None
    }
}

/// Minus the middle of an error, in units of a literal's point.
fn units_off(error: FixedInterval, point: i32) -> i128 {
    let places = i64::from(error.e)
        .saturating_add(1)
        .saturating_sub(i64::from(point))
        .clamp(0, 1000) as u32;
    if places == 0 {
        return 0;
    }
    let half = left_fits(1, places.saturating_sub(1)).unwrap_or(0);
    let twice = error.lo.saturating_add(error.hi).saturating_add(half);
    floor_shift(twice, places).saturating_neg()
}

/// By how much literal `c` is moved in a sum or a difference.
fn sum_move(setting: &Setting<'_>, node: &Node, c: usize, error: FixedInterval) -> i128 {
    let units = units_off(error, setting.point(c).unwrap_or(0));
    match node {
        Node::Add { .. } => units,
        Node::Sub { b, .. } => if *b as usize == c {
            units.saturating_neg()
        } else {
            units
        },
        _ => 0,
    }
}

/// Literal `c` with a word at a point, if it is one.
fn word_of(setting: &Setting<'_>, c: usize, word: i128, f: i32) -> Option<Word> {
    match (setting.literal(c), word_at(word, setting.wanted.width)) {
        (Some(value), Some(w)) => match word_error(value, word, f, setting.ranges.grids()) {
            Some(error) => Some(Word { w, f, error }),
            None => None,
        },
        _ => None,
    }
}

/// The word of literal `c` moved by so many units, if it is another one.
fn moved_word(setting: &Setting<'_>, codes: &[Code], c: usize, units: i128) -> Option<Word> {
    match codes.get(c) {
        Some(Code::Const { w, f }) => if units == 0 {
            None
        } else {
            word_of(setting, c, i128::from(*w).saturating_add(units), *f)
        },
        _ => None,
    }
}

/// An error if it is smaller than another.
fn smaller(found: MaybeInterval, error: FixedInterval) -> Option<FixedInterval> {
    match found.get() {
        Some(found) => if found.is_smaller(error).unwrap_or(false) {
            Some(found)
        } else {
            None
        },
        None => None,
    }
}

/// The plain error of operation `n` if it is smaller than it was.
fn smaller_error(
    setting: &Setting<'_>,
    codes: &[Code],
    errors: &Errors,
    n: usize,
    error: FixedInterval,
) -> Option<FixedInterval> {
    match (codes.get(n), setting.point(n)) {
        (Some(code), Some(point)) => smaller(plain_error(setting, errors, code, point), error),
        _ => None,
    }
}

/// Gives literal `c` another word.
fn put_word(codes: &mut [Code], c: usize, word: Word) {
    if let Some(slot) = codes.get_mut(c) {
        *slot = Code::Const {
            w: word.w,
            f: word.f,
        };
    }
}

/// The error of operation `n` with another word of literal `c`. The word stays where the error gets smaller.
fn with_word(
    setting: &Setting<'_>,
    codes: &mut [Code],
    errors: &mut Errors,
    n: usize,
    c: usize,
    word: Word,
    error: FixedInterval,
) -> FixedInterval {
    let before = errors.span(c).unwrap_or(FixedInterval::ZERO);
    errors.put(c, word.error);
    match smaller_error(setting, codes, errors, n, error) {
        Some(found) => {
            put_word(codes, c, word);
            found
        }
        None => {
            errors.put(c, before);
            error
        }
    }
}

/// The error of operation `n` where literal `c` is moved by so many units. The move stays where the error gets smaller.
fn moved(
    setting: &Setting<'_>,
    codes: &mut [Code],
    errors: &mut Errors,
    n: usize,
    c: usize,
    units: i128,
    error: FixedInterval,
) -> FixedInterval {
    match moved_word(setting, codes, c, units) {
        Some(word) => with_word(setting, codes, errors, n, c, word, error),
        None => error,
    }
}

/// The error of a product by a factor with one sign, after moves of its literal by a unit to either side.
fn moved_factor(
    setting: &Setting<'_>,
    codes: &mut [Code],
    errors: &mut Errors,
    n: usize,
    (c, other): (usize, usize),
    error: FixedInterval,
) -> FixedInterval {
    let factor = setting.ranges.span(other).unwrap_or(FixedInterval::ZERO);
    if factor.lo < 0 && factor.hi > 0 {
        return error;
    }
    let first = moved(setting, codes, errors, n, c, -1, error);
    moved(setting, codes, errors, n, c, 1, first)
}

/// The error of operation `n` after moves of this literal.
fn with_moves(
    setting: &Setting<'_>,
    codes: &mut [Code],
    errors: &mut Errors,
    n: usize,
    (c, other): (usize, usize),
    error: FixedInterval,
) -> FixedInterval {
    match setting.nodes.get(n) {
        Some(Node::Mul { .. }) => moved_factor(setting, codes, errors, n, (c, other), error),
        Some(node) => {
            let units = sum_move(setting, node, c, error);
            moved(setting, codes, errors, n, c, units, error)
        }
        None => error,
    }
}

/// The error of operation `n`, whose plain error is given, after a move of its literal if that helps.
pub fn centred(
    setting: &Setting<'_>,
    codes: &mut [Code],
    errors: &mut Errors,
    n: usize,
    error: FixedInterval,
) -> FixedInterval {
    match movable(setting, n) {
        Some(literal) => with_moves(setting, codes, errors, n, literal, error),
        None => error,
    }
}
