//! Affine forms: a node's value as a sum over the inputs and a rest.
//!
//! A form keeps what plain intervals lose, that the same input stands in both operands. Its coefficients are cut to so
//! many bits as the grids allow; what is cut off goes to the rest, and where nothing was, the errors have no such share
//! either.

use crate::coefficients::Coefficients;
use fx_flat::Node;
use fx_num::{Dyadic, bits, floor_shift, left_fits};
use fx_search_numbers::{FixedInterval, Grids, MaybeInterval, product};

/// What a form has beside its coefficients, which stand in a row of `Coefficients`.
#[derive(Clone, Copy)]
pub struct RangeForm {
    /// The grid of the coefficients.
    pub e: u32,
    /// Where the value less the sum lies.
    pub rest: FixedInterval,
    /// Where a product's operands are centred.
    pub centre_a: Dyadic,
    pub centre_b: Dyadic,
    /// Whether coefficients were cut.
    pub is_cut: bool,
    /// Whether the form shows the range.
    pub shows_range: bool,
}

impl RangeForm {
    /// The form of a value that is a rest alone.
    pub fn of_rest(rest: FixedInterval) -> RangeForm {
        RangeForm {
            e: 0,
            rest,
            centre_a: Dyadic::zero(),
            centre_b: Dyadic::zero(),
            is_cut: false,
            shows_range: false,
        }
    }

    /// The form with this rest, whose coefficients on the grid `e` have so many places less.
    fn cut(
        self,
        rest: Option<FixedInterval>,
        e: u32,
        places: u32,
        grids: Grids,
    ) -> Option<RangeForm> {
        match rest {
            Some(rest) => Some(RangeForm {
                e: e.saturating_sub(places),
                rest: grids.rounded(rest),
                is_cut: places > 0,
                ..self
            }),
            None => None,
        }
    }
}

/// How two rows are mixed: `s` times the first and `t` times the second, on the grid `e`.
#[derive(Clone, Copy)]
pub struct Mix {
    s: i128,
    t: i128,
    pub e: u32,
}

impl Mix {
    /// The coefficient that comes of two.
    pub fn of(self, x: i128, y: i128) -> Option<i128> {
        if x == 0 && y == 0 {
            Some(0)
        } else {
            match (product(self.s, x), product(self.t, y)) {
                (Some(left), Some(right)) => left.checked_add(right),
                _ => None,
            }
        }
    }

    /// One row by `s` and one by `t`, which come to the grids `left` and `right`.
    fn on_finer(left: u32, s: i128, right: u32, t: i128) -> Option<Mix> {
        let e = left.max(right);
        let s = left_fits(s, e.saturating_sub(left));
        let t = left_fits(t, e.saturating_sub(right));
        match (s, t) {
            (Some(s), Some(t)) => Some(Mix { s, t, e }),
            _ => None,
        }
    }

    /// One row by `s` and one by `t`, whose grids are `a` and `b`.
    fn aligned(a: u32, s: Dyadic, b: u32, t: Dyadic) -> Option<Mix> {
        match (a.checked_add(s.e), b.checked_add(t.e)) {
            (Some(left), Some(right)) => Mix::on_finer(left, s.m, right, t.m),
            _ => None,
        }
    }
}

/// The operands of an operation. One operand stands for both.
pub fn operands(node: &Node) -> Option<(usize, usize)> {
    match node {
        Node::Neg { a } => Some((*a as usize, *a as usize)),
        Node::Copy { a } => Some((*a as usize, *a as usize)),
        Node::Add { a, b } => Some((*a as usize, *b as usize)),
        Node::Sub { a, b } => Some((*a as usize, *b as usize)),
        Node::Mul { a, b } => Some((*a as usize, *b as usize)),
        Node::Div { a, b } => Some((*a as usize, *b as usize)),
        _ => None,
    }
}

/// How an operation mixes its operands' rows, whose grids are `a` and `b`.
pub fn mix_of(node: &Node, form: &RangeForm, a: u32, b: u32) -> Option<Mix> {
    let one = Dyadic::new(1, 0);
    let minus_one = Dyadic::new(-1, 0);
    match node {
        Node::Neg { .. } => Mix::aligned(a, minus_one, b, Dyadic::zero()),
        Node::Copy { .. } => Mix::aligned(a, one, b, Dyadic::zero()),
        Node::Add { .. } => Mix::aligned(a, one, b, one),
        Node::Sub { .. } => Mix::aligned(a, one, b, minus_one),
        Node::Mul { .. } => Mix::aligned(a, form.centre_b, b, form.centre_a),
        _ => None,
    }
}

/// A number of few bits near the middle of a range.
pub fn middle_of(range: FixedInterval, grids: Grids) -> Option<Dyadic> {
    match range.lo.checked_add(range.hi) {
        Some(twice) => {
            let middle = floor_shift(twice, 1);
            let places = bits(middle.unsigned_abs())
                .saturating_sub(grids.centre_bits)
                .min(range.e);
            Dyadic::checked(floor_shift(middle, places), range.e.saturating_sub(places))
        }
        None => None,
    }
}

/// Where an operand of a product is centred.
#[derive(Clone, Copy, PartialEq, Eq)]
pub enum Centre {
    /// At the middle of its range.
    Middle,
    /// At the lower end.
    Low,
    /// At the upper end.
    High,
    /// At zero: of an operand so centred the other one's form is of no use.
    Zero,
}

/// The centres of both operands.
#[derive(Clone, Copy, PartialEq, Eq)]
pub struct Centres {
    pub a: Centre,
    pub b: Centre,
}

impl Centres {
    /// Both at the middle.
    pub const MIDDLE: Centres = Centres {
        a: Centre::Middle,
        b: Centre::Middle,
    };
}

/// The range that has this end alone.
fn end_alone(end: i128, e: u32) -> FixedInterval {
    FixedInterval {
        lo: end,
        hi: end,
        e,
    }
}

/// A number of few bits near that point of a range.
pub fn centre_at(range: FixedInterval, at: Centre, grids: Grids) -> Option<Dyadic> {
    match at {
        Centre::Middle => middle_of(range, grids),
        Centre::Low => middle_of(end_alone(range.lo, range.e), grids),
        Centre::High => middle_of(end_alone(range.hi, range.e), grids),
        Centre::Zero => Some(Dyadic::zero()),
    }
}

/// A rest and the sum of the row's coefficients by what is said of each input.
pub fn weighted(
    row: &[i128],
    e: u32,
    rest: FixedInterval,
    inputs: &[FixedInterval],
) -> Option<FixedInterval> {
    let mut sum = MaybeInterval::some(rest);
    for (m, span) in row.iter().zip(inputs) {
        sum = sum.plus_scaled(*m, e, MaybeInterval::some(*span));
    }
    sum.get()
}

/// The coefficient that two rows give at a place.
fn mixed(coefficients: &Coefficients, a: usize, b: usize, mix: Mix, k: usize) -> Option<i128> {
    match (coefficients.at(a, k), coefficients.at(b, k)) {
        (Some(x), Some(y)) => mix.of(x, y),
        _ => None,
    }
}

/// Puts a coefficient, if there is one, at a place of a row, and gives its size.
fn put_mixed(
    coefficients: &mut Coefficients,
    n: usize,
    k: usize,
    mixed: Option<i128>,
) -> Option<u128> {
    match mixed {
        Some(m) => if coefficients.put(n, k, m) {
            Some(m.unsigned_abs())
        } else {
            None
        },
        None => None,
    }
}

/// Writes the row of an operation, and gives the greatest size in it.
fn mix_rows(
    coefficients: &mut Coefficients,
    n: usize,
    a: usize,
    b: usize,
    mix: Mix,
) -> Option<u128> {
    let mut greatest = 0;
    for k in 0..coefficients.width() {
        let m = mixed(coefficients, a, b, mix, k);
        match put_mixed(coefficients, n, k, m) {
            Some(size) => greatest = size.max(greatest),
            None => return None,
        }
    }
    Some(greatest)
}

/// A coefficient without its last places, to the nearest, and what was cut off. `half` is half a unit of what is left.
fn cut(m: i128, half: i128, places: u32) -> Option<(i128, i128)> {
    let kept = match m.checked_add(half) {
        Some(raised) => floor_shift(raised, places),
        None => return None,
    };
    match left_fits(kept, places) {
        Some(back) => match m.checked_sub(back) {
            Some(off) => Some((kept, off)),
            None => None,
        },
        None => None,
    }
}

/// Cuts a coefficient where it stands, and gives what was cut off.
fn cut_at(
    coefficients: &mut Coefficients,
    n: usize,
    k: usize,
    half: i128,
    places: u32,
) -> Option<i128> {
    let found = match coefficients.at(n, k) {
        Some(m) => cut(m, half, places),
        None => None,
    };
    match found {
        Some((kept, off)) => if coefficients.put(n, k, kept) {
            Some(off)
        } else {
            None
        },
        None => None,
    }
}

/// A sum with so many times an input, if both are there.
fn with_off(
    sum: MaybeInterval,
    off: Option<i128>,
    e: u32,
    input: Option<&FixedInterval>,
) -> MaybeInterval {
    match off {
        Some(off) => sum.plus_scaled(off, e, MaybeInterval::of(input.copied())),
        None => MaybeInterval::NONE,
    }
}

/// Cuts so many places off a row's coefficients, at least one, and adds what they come to to the rest.
fn cut_row(
    coefficients: &mut Coefficients,
    n: usize,
    e: u32,
    places: u32,
    rest: FixedInterval,
    inputs: &[FixedInterval],
) -> Option<FixedInterval> {
    let half = match left_fits(1, places.saturating_sub(1)) {
        Some(half) => half,
        None => return None,
    };
    let mut sum = MaybeInterval::some(rest);
    for k in 0..coefficients.width() {
        let off = cut_at(coefficients, n, k, half, places);
        sum = with_off(sum, off, e, inputs.get(k));
    }
    sum.get()
}

/// How many places are cut off coefficients of at most this size on the grid `e`.
fn places_cut(greatest: u128, e: u32, grids: Grids) -> u32 {
    let by_bits = bits(greatest).saturating_sub(grids.coefficient_bits).min(e);
    by_bits.max(e.saturating_sub(grids.place_limit))
}

/// Writes the row of an operation whose form has the rest, with so many bits a coefficient as the grids allow.
pub fn write_row(
    coefficients: &mut Coefficients,
    n: usize,
    (a, b): (usize, usize),
    mix: Mix,
    form: RangeForm,
    inputs: &[FixedInterval],
    grids: Grids,
) -> Option<RangeForm> {
    match mix_rows(coefficients, n, a, b, mix) {
        Some(greatest) => {
            let places = places_cut(greatest, mix.e, grids);
            let rest = if places > 0 {
                cut_row(coefficients, n, mix.e, places, form.rest, inputs)
            } else {
                Some(form.rest)
            };
            form.cut(rest, mix.e, places, grids)
        }
        None => None,
    }
}
