//! What the first pass says of all nodes: ranges, forms, and up to which points words hold them.

use crate::coefficients::Coefficients;
use crate::form::{Centres, RangeForm};
use fx_num::{Dyadic, GREATEST_POINT, LEAST_POINT, Memory, bits};
use fx_search_numbers::{FixedInterval, Grids, MaybeInterval, fits_word};
use std::alloc::Global;

/// The greatest point at which a range fits a word of so many bits, from -64 to 62.
fn highest_point(span: FixedInterval, width: u32) -> i32 {
    let size = span.size();
    let free = i64::from(width).saturating_add(i64::from(span.e));
    let highest = free.saturating_sub(i64::from(bits(size)));
    let point = highest.clamp(i64::from(LEAST_POINT), i64::from(GREATEST_POINT)) as i32;
    if size == 0 {
        GREATEST_POINT
    } else if fits_word(span, point, width) {
        point
    } else {
        point.saturating_sub(1).max(LEAST_POINT)
    }
}

/// The number of this size on the grid `e`.
fn dyadic(size: u128, e: u32) -> Option<Dyadic> {
    match i128::try_from(size) {
        Ok(m) => Dyadic::checked(m, e),
        Err(_) => None,
    }
}

/// What the first pass says of all nodes.
#[derive(Drop)]
pub struct Ranges {
    pub(crate) grids: Grids,
    pub(crate) spans: Vec<FixedInterval>,
    forms: Vec<Option<RangeForm>>,
    pub(crate) coefficients: Coefficients,
    /// The centres of each node's operands, in the middle from the list's end on.
    centres: Vec<Centres>,
}

impl Ranges {
    /// The ranges of no nodes yet.
    pub(crate) fn new(
        alloc: Global,
        grids: Grids,
        coefficients: Coefficients,
        centres: Vec<Centres>,
    ) -> Ranges {
        Ranges {
            grids,
            spans: Vec::new(alloc),
            forms: Vec::new(alloc),
            coefficients,
            centres,
        }
    }

    /// Adds a node's range, and its form if it has one.
    pub(crate) fn push(
        &mut self,
        span: FixedInterval,
        form: Option<RangeForm>,
    ) -> Result<(), Memory> {
        self.spans.push(span)?;
        self.forms.push(form)?;
        Ok(())
    }

    /// Where the operands of a node are centred.
    pub fn centres_of(&self, n: usize) -> Centres {
        self.centres.get(n).copied().unwrap_or(Centres::MIDDLE)
    }

    /// The grids of ranges and errors.
    pub fn grids(&self) -> Grids {
        self.grids
    }

    /// How many coefficients a form has: one for each input and state.
    pub fn variables(&self) -> usize {
        self.coefficients.width()
    }

    /// The coefficients of a node's form, on its grid.
    pub fn row(&self, n: usize) -> &[i128] {
        self.coefficients.row(n)
    }

    /// A coefficient of a node's form, on its grid.
    pub fn coefficient(&self, n: usize, k: usize) -> Option<i128> {
        self.coefficients.at(n, k)
    }

    /// The range of a node.
    pub fn span(&self, n: usize) -> Option<FixedInterval> {
        self.spans.get(n).copied()
    }

    /// The form of a node, if it has one.
    pub fn form(&self, n: usize) -> Option<RangeForm> {
        self.forms.get(n).copied()?
    }

    /// Whether a node has a form.
    pub(crate) fn has_form(&self, n: usize) -> bool {
        matches!(self.forms.get(n), Some(Some(_)))
    }

    /// The rest of a node's form, which is its range where it has none.
    pub(crate) fn rest(&self, n: usize) -> Option<FixedInterval> {
        match self.forms.get(n) {
            Some(Some(form)) => Some(form.rest),
            _ => self.span(n),
        }
    }

    /// The grid of a node's coefficients.
    pub fn grid(&self, n: usize) -> u32 {
        match self.form(n) {
            Some(form) => form.e,
            None => 0,
        }
    }

    /// The greatest point at which the node's range fits a word of so many bits, from -64 to 62.
    pub fn cap(&self, n: usize, width: u32) -> Option<i32> {
        match self.span(n) {
            Some(span) => Some(highest_point(span, width)),
            None => None,
        }
    }

    /// Whether a word at a point holds whatever of the node's range has such an error.
    pub fn fits(&self, n: usize, error: FixedInterval, point: i32, width: u32) -> Option<bool> {
        let held = MaybeInterval::of(self.span(n)).plus(MaybeInterval::some(error));
        match held.get() {
            Some(held) => Some(fits_word(held, point, width)),
            None => None,
        }
    }

    /// The greater end of the node's range without its sign.
    pub fn size(&self, n: usize) -> Option<Dyadic> {
        match self.span(n) {
            Some(span) => dyadic(span.size(), span.e),
            None => None,
        }
    }

    /// The lesser end of the node's range without its sign, which is the least size of a divisor.
    pub fn least_size(&self, n: usize) -> Option<Dyadic> {
        match self.span(n) {
            Some(span) => dyadic(span.least_size(), span.e),
            None => None,
        }
    }

    /// Takes another range for a node.
    pub fn put_span(&mut self, n: usize, span: FixedInterval) {
        if let Some(slot) = self.spans.get_mut(n) {
            *slot = span;
        }
    }

    /// Says whether a node's form shows its range.
    pub(crate) fn put_shown(&mut self, n: usize, is_shown: bool) {
        if let Some(Some(form)) = self.forms.get_mut(n) {
            form.shows_range = is_shown;
        }
    }
}
