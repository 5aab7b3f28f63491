//! The second pass: the error of each node, at given points and words.
//!
//! An error is the machine's value less the exact one. The formulas are the checker's, rounded outward once a node.
//! Where a node has a form, its error has one too, over the inputs' errors, and the narrower of both stands.

use crate::centre::centred;
use crate::node_error::NodeError;
use crate::rounding::{both_sides, shift_roundoff, term_roundoff};
use crate::setting::Setting;
use fx_num::{Memory, left_fits};
use fx_program::{Code, Kind};
use fx_ranges::{Mix, RangeForm, Ranges, Unplanned, mix_of, weighted};
use fx_search_numbers::{FixedInterval, MaybeInterval, reading_error, word_error};
use std::alloc::Global;

/// What the second pass says of all nodes.
#[derive(Drop)]
pub struct Errors {
    /// The error of each node.
    pub spans: Vec<FixedInterval>,
    /// The rest of its form, or the error again.
    pub rests: Vec<FixedInterval>,
    /// Whether the form shows the error.
    pub shown: Vec<bool>,
    /// The nodes whose words are too small for their values.
    pub small: Vec<u32>,
}

impl Errors {
    /// Of no nodes yet.
    pub fn new(alloc: Global) -> Errors {
        Errors {
            spans: Vec::new(alloc),
            rests: Vec::new(alloc),
            shown: Vec::new(alloc),
            small: Vec::new(alloc),
        }
    }

    /// Appends the error of node `n`.
    fn push(&mut self, n: usize, error: NodeError, is_small: bool) -> Result<(), Memory> {
        self.spans.push(error.span)?;
        self.rests.push(error.rest)?;
        self.shown.push(error.is_shown)?;
        if is_small {
            self.small.push(Unplanned::at(n).node)?;
        }
        Ok(())
    }

    /// The error of a node, if it has one yet.
    fn maybe(&self, n: usize) -> MaybeInterval {
        MaybeInterval::of(self.span(n))
    }

    /// The error of a node.
    pub fn span(&self, n: usize) -> Option<FixedInterval> {
        self.spans.get(n).copied()
    }

    /// The rest of a node's form.
    pub fn rest(&self, n: usize) -> Option<FixedInterval> {
        self.rests.get(n).copied()
    }

    /// Whether a node's form shows its error.
    pub fn is_shown(&self, n: usize) -> bool {
        self.shown.get(n).copied().unwrap_or(false)
    }

    /// Takes another word's error as that of a literal.
    pub fn put(&mut self, n: usize, span: FixedInterval) {
        if let Some(error) = self.spans.get_mut(n) {
            *error = span;
        }
        if let Some(rest) = self.rests.get_mut(n) {
            *rest = span;
        }
    }
}

/// What is said of an operand.
fn of(list: &[FixedInterval], a: u32) -> MaybeInterval {
    MaybeInterval::of(list.get(a as usize).copied())
}

/// The error of a code but a product, by what is said of its operands: their errors, or the rests of their forms.
fn linear_error(list: &[FixedInterval], kind: &Kind, point: i32) -> MaybeInterval {
    match kind {
        Kind::Neg { a } => of(list, *a).negative(),
        Kind::Copy { r, a, s } => of(list, *a).plus(shift_roundoff(*r, *s, point)),
        Kind::Add { a, b, sa, sb } => of(list, *a)
            .plus(of(list, *b))
            .plus(term_roundoff(*sa, point))
            .plus(term_roundoff(*sb, point)),
        Kind::Sub { a, b, sa, sb } => of(list, *a)
            .minus(of(list, *b))
            .plus(term_roundoff(*sa, point))
            .minus(term_roundoff(*sb, point)),
        _ => MaybeInterval::NONE,
    }
}

/// A product's range off its centre by the other operand's error, and so the other way, and both errors.
fn product_off(
    setting: &Setting<'_>,
    errors: &Errors,
    (a, b): (usize, usize),
    form: &RangeForm,
) -> MaybeInterval {
    let x = setting.range(a).minus(MaybeInterval::single(form.centre_a));
    let y = setting.range(b).minus(MaybeInterval::single(form.centre_b));
    let error_a = errors.maybe(a);
    let error_b = errors.maybe(b);
    x.times(error_b)
        .plus(y.times(error_a))
        .plus(error_a.times(error_b))
}

/// The error of a product by its form. A form without centres gives the plain error.
fn product_error(
    setting: &Setting<'_>,
    errors: &Errors,
    (a, b): (usize, usize),
    form: &RangeForm,
    roundoff: MaybeInterval,
) -> MaybeInterval {
    let left = MaybeInterval::of(errors.rest(a)).scaled(form.centre_b);
    let right = MaybeInterval::of(errors.rest(b)).scaled(form.centre_a);
    product_off(setting, errors, (a, b), form)
        .plus(left.plus(right))
        .plus(roundoff)
}

/// The plain error of an operation but a quotient, before it is rounded.
fn unrounded_error(
    setting: &Setting<'_>,
    errors: &Errors,
    code: &Code,
    point: i32,
) -> MaybeInterval {
    match &code.kind() {
        Kind::Mul { r, a, b, s } => {
            let roundoff = shift_roundoff(*r, i64::from(*s), point);
            let form = RangeForm::of_rest(FixedInterval::ZERO);
            product_off(setting, errors, (*a as usize, *b as usize), &form).plus(roundoff)
        }
        kind => linear_error(&errors.spans, kind, point),
    }
}

/// The plain error of an operation but a quotient, on the grid of its point.
pub fn plain_error(
    setting: &Setting<'_>,
    errors: &Errors,
    code: &Code,
    point: i32,
) -> MaybeInterval {
    setting.on_error_grid(unrounded_error(setting, errors, code, point), point)
}

/// What was cut off variable `k` of the form of node `n`, on the grid of the mix, so many places behind the form's.
fn cut_off(
    ranges: &Ranges,
    n: usize,
    (a, b): (usize, usize),
    mix: Mix,
    places: u32,
    k: usize,
) -> Option<i128> {
    let x = ranges.coefficient(a, k).unwrap_or(0);
    let y = ranges.coefficient(b, k).unwrap_or(0);
    let kept = left_fits(ranges.coefficient(n, k).unwrap_or(0), places);
    match (mix.of(x, y), kept) {
        (Some(exact), Some(kept)) => exact.checked_sub(kept),
        _ => None,
    }
}

/// A sum with so much of a variable's error, on this grid.
fn with_share(
    sum: MaybeInterval,
    share: Option<i128>,
    e: u32,
    error: MaybeInterval,
) -> MaybeInterval {
    match share {
        Some(m) => sum.plus_scaled(m, e, error),
        None => MaybeInterval::NONE,
    }
}

/// A rest with what the cut coefficients of a mix leave of the variables' errors.
fn mixed_share(
    setting: &Setting<'_>,
    errors: &Errors,
    n: usize,
    operands: (usize, usize),
    mix: Mix,
    rest: MaybeInterval,
) -> MaybeInterval {
    let ranges = setting.ranges;
    let places = mix.e.saturating_sub(ranges.grid(n));
    let mut sum = rest;
    for k in 0..ranges.variables() {
        let share = cut_off(ranges, n, operands, mix, places, k);
        sum = with_share(sum, share, mix.e, errors.maybe(k));
    }
    sum
}

/// What the cut coefficients leave of the inputs' errors.
fn cut_share(
    setting: &Setting<'_>,
    errors: &Errors,
    n: usize,
    form: &RangeForm,
    rest: MaybeInterval,
) -> MaybeInterval {
    let (a, b) = setting.operands(n);
    match setting.nodes.get(n) {
        Some(node) => {
            match mix_of(node, form, setting.ranges.grid(a), setting.ranges.grid(b)) {
                Some(mix) => mixed_share(setting, errors, n, (a, b), mix, rest),
                None => MaybeInterval::NONE,
            }
        }
        None => MaybeInterval::NONE,
    }
}

/// The rest of an operation's error by its form, on the grid of its point.
fn error_rest(
    setting: &Setting<'_>,
    errors: &Errors,
    n: usize,
    code: &Code,
    point: i32,
    form: &RangeForm,
) -> MaybeInterval {
    let rest = match &code.kind() {
        Kind::Mul { r, a, b, s } => {
            let roundoff = shift_roundoff(*r, i64::from(*s), point);
            product_error(setting, errors, (*a as usize, *b as usize), form, roundoff)
        }
        kind => linear_error(&errors.rests, kind, point),
    };
    let rest = if form.is_cut {
        cut_share(setting, errors, n, form, rest)
    } else {
        rest
    };
    setting.on_error_grid(rest, point)
}

/// The narrower of the plain error and that of a form with this rest.
fn narrower_error(
    setting: &Setting<'_>,
    errors: &Errors,
    n: usize,
    point: i32,
    plain: FixedInterval,
    rest: FixedInterval,
) -> Option<NodeError> {
    let row = setting.ranges.row(n);
    let sum = weighted(row, setting.ranges.grid(n), rest, &errors.spans);
    match setting.on_error_grid(MaybeInterval::of(sum), point).get() {
        Some(by_form) => NodeError::narrower(plain, by_form, rest),
        None => None,
    }
}

/// The narrower of the plain error and the form's.
fn formed_error(
    setting: &Setting<'_>,
    errors: &Errors,
    n: usize,
    code: &Code,
    point: i32,
    plain: FixedInterval,
) -> Option<NodeError> {
    match setting.ranges.form(n) {
        Some(form) => match error_rest(setting, errors, n, code, point, &form).get() {
            Some(rest) => narrower_error(setting, errors, n, point, plain, rest),
            None => None,
        },
        None => NodeError::plain(MaybeInterval::some(plain)),
    }
}

/// Whether neither a divisor nor what the machine sees of it may be zero, and both have one sign.
fn have_one_sign(divisor: FixedInterval, seen: FixedInterval) -> bool {
    divisor.is_clear() && seen.is_clear() && (divisor.lo > 0) == (seen.lo > 0)
}

/// The quotient of an error by a divisor as the machine sees it, one unit wider to both sides.
fn divided_error(
    setting: &Setting<'_>,
    point: i32,
    divisor: FixedInterval,
    seen: FixedInterval,
    top: FixedInterval,
) -> MaybeInterval {
    if !have_one_sign(divisor, seen) {
        return MaybeInterval::NONE;
    }
    let e = setting.error_grid(point);
    let quotient = MaybeInterval::of(top.over(seen, e));
    setting.on_error_grid(quotient.plus(both_sides(point, e)), point)
}

/// The error of a quotient, which is one unit more to both sides than the operands make it.
fn quotient_error(
    setting: &Setting<'_>,
    errors: &Errors,
    n: usize,
    point: i32,
    (a, b): (usize, usize),
) -> MaybeInterval {
    let divisor = setting.range(b);
    let seen = divisor.plus(errors.maybe(b));
    let off = setting.range(n).times(errors.maybe(b));
    let top = errors.maybe(a).minus(off);
    match (divisor.get(), seen.get(), top.get()) {
        (Some(divisor), Some(seen), Some(top)) => {
            divided_error(setting, point, divisor, seen, top)
        }
        _ => MaybeInterval::NONE,
    }
}

/// The error of a literal's word at a point.
fn literal_error(setting: &Setting<'_>, n: usize, w: i64, f: i32) -> Option<NodeError> {
    match setting.literal(n) {
        Some(c) => {
            let error = word_error(c, i128::from(w), f, setting.ranges.grids());
            NodeError::plain(MaybeInterval::of(error))
        }
        None => None,
    }
}

/// The error of an input.
fn input_error(setting: &Setting<'_>, k: usize, point: i32) -> Option<NodeError> {
    let function = setting.function;
    match function.inputs.as_slice().get(k) {
        Some(input) => {
            let error = reading_error(input.err, point, setting.error_grid(point));
            NodeError::of_variable(setting.on_error_grid(MaybeInterval::of(error), point))
        }
        None => None,
    }
}

/// The error of an operation but a quotient, with a literal's word moved before it where that is wanted and helps.
fn operation_error(
    setting: &Setting<'_>,
    codes: &mut [Code],
    errors: &mut Errors,
    n: usize,
    code: &Code,
    point: i32,
    is_centred: bool,
) -> Option<NodeError> {
    match plain_error(setting, errors, code, point).get() {
        Some(plain) => {
            let plain = if is_centred {
                centred(setting, codes, errors, n, plain)
            } else {
                plain
            };
            formed_error(setting, errors, n, code, point, plain)
        }
        None => None,
    }
}

/// The error of a node with this code and this point, behind those that have one.
fn coded_error(
    setting: &Setting<'_>,
    codes: &mut [Code],
    errors: &mut Errors,
    n: usize,
    code: &Code,
    point: i32,
    is_centred: bool,
) -> Option<NodeError> {
    match code {
        Code::Input { k, .. } => input_error(setting, *k as usize, point),
        // the error of a state is its box
        Code::State { k, .. } => NodeError::of_variable(of(setting.boxes, *k)),
        Code::Const { w, f } => literal_error(setting, n, *w, *f),
        Code::Div { a, b, .. } => {
            let operands = (*a as usize, *b as usize);
            NodeError::plain(quotient_error(setting, errors, n, point, operands))
        }
        _ => operation_error(setting, codes, errors, n, code, point, is_centred),
    }
}

/// The error of a node behind those that have one, and whether its word is too small for what the machine may hold.
fn node_error(
    setting: &Setting<'_>,
    codes: &mut [Code],
    errors: &mut Errors,
    n: usize,
    is_centred: bool,
) -> Option<(NodeError, bool)> {
    let found = match (codes.get(n).copied(), setting.point(n)) {
        (Some(code), Some(point)) => {
            coded_error(setting, codes, errors, n, &code, point, is_centred)
        }
        _ => None,
    };
    match found {
        Some(error) => match setting.fits(n, error.span) {
            Some(fits) => Some((error, !fits)),
            None => None,
        },
        None => None,
    }
}

/// Appends the errors of all nodes, up to the first that has none, which is told.
fn add_errors(
    setting: &Setting<'_>,
    codes: &mut [Code],
    errors: &mut Errors,
    is_centred: bool,
) -> Result<Option<Unplanned>, Memory> {
    for n in 0..setting.nodes.len() {
        match node_error(setting, codes, errors, n, is_centred) {
            Some((error, is_small)) => errors.push(n, error, is_small)?,
            None => return Ok(Some(Unplanned::at(n))),
        }
    }
    Ok(None)
}

/// The errors of all nodes, or the first node that has none.
///
/// Where it is wanted that words are centred, those of literals are moved on the way.
pub fn find_errors(
    alloc: Global,
    setting: &Setting<'_>,
    codes: &mut [Code],
    is_centred: bool,
) -> Result<Result<Errors, Unplanned>, Memory> {
    let mut errors = Errors::new(alloc);
    match add_errors(setting, codes, &mut errors, is_centred) {
        Ok(None) => Ok(Ok(errors)),
        Ok(Some(failed)) => Ok(Err(failed)),
        Err(memory) => Err(memory),
    }
}
